// Graphs of the examples.
use graphs::graph::{Graph, Length, NODES, Node, ROWS, Rows};
use headers::kinds::Kind;
use patterns::row::{RangeRow, Target, TernaryRow};

// A header of one byte, which looks at so many bytes from its first on.
fn node(places: u8, row_count: u8, rows: Rows) -> Node {
    Node {
        kind: Kind::Other,
        length: Length::Fixed(1),
        place_count: places,
        places: [0, 1, 2, 3],
        row_count,
        rows,
    }
}

// One row, which every key fits.
pub(crate) fn always(places: u8, target: Target) -> Node {
    let row = TernaryRow {
        value: 0,
        mask: 0,
        target,
    };
    node(places, 1, Rows::Ternary([row; ROWS]))
}

// So many rows, each for one value of the first byte.
pub(crate) fn listed(count: u8) -> Node {
    let row = TernaryRow {
        value: 0,
        mask: 0xff00_0000,
        target: Target::Done,
    };
    let mut rows = [row; ROWS];
    for (row, value) in rows.iter_mut().zip(0..=255) {
        row.value = u32::from_be_bytes([value, 0, 0, 0]);
    }
    node(1, count, Rows::Ternary(rows))
}

// One range row, of 30 blocks: from 1 to 65,534.
pub(crate) fn ranged(target: Target) -> Node {
    let row = RangeRow {
        low: 1,
        high: 65534,
        target,
    };
    node(2, 1, Rows::Range([row; ROWS]))
}

// A graph of four nodes.
pub(crate) fn four(first: Node, second: Node, third: Node, fourth: Node) -> Graph {
    let mut nodes = [fourth; NODES];
    nodes[0] = first;
    nodes[1] = second;
    nodes[2] = third;
    Graph { count: 4, nodes }
}

// Four nodes that look at so many bytes each; each leads to the next.
pub(crate) fn line(widths: [u8; 4]) -> Graph {
    let [a, b, c, d] = widths;
    four(
        always(a, Target::Node(1)),
        always(b, Target::Node(2)),
        always(c, Target::Node(3)),
        always(d, Target::Done),
    )
}

// Four nodes of one range of 30 blocks each; each leads to the next.
pub(crate) fn ranges() -> Graph {
    four(
        ranged(Target::Node(1)),
        ranged(Target::Node(2)),
        ranged(Target::Node(3)),
        ranged(Target::Done),
    )
}

// All 32 nodes: the first has one row, which leads to the second; the others have 16 rows, the last
// as many as are given.
pub(crate) fn wide(last: u8) -> Graph {
    let mut nodes = [listed(16); NODES];
    nodes[0] = always(1, Target::Node(1));
    nodes[31] = listed(last);
    Graph { count: 32, nodes }
}
