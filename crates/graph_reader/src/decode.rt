// A right record's bytes, read as a node.
ghost use Rattle.std.specs.Prelude.{◌≡◌, ℕ, ◌+◌, ◌*◌, ◌≤◌, List, length, take, None, slice_index};
ghost use Rattle.graphs.specs.View.{node_view, rows_view, graph_view, NodeCounts, Counts};
ghost use Rattle.graph_reader.specs.Decoding.{length_in, target_in, ternary_in, range_in, each_row, rows_in, node_in, nodes_in};
ghost use Rattle.graph_reader.specs.Files.{pair_fault, byte_fault};
ghost use Rattle.headers.specs.Kinds.{kind_at};

use crate::pairs::Pair;
use crate::record::RowAt;
use graphs::graph::{Graph, Length, NODES, Node, Rows};
use headers::kinds::Kind;
use octets::read::byte_at;
use patterns::row::{RangeRow, Target, TernaryRow};
use std::array;

// The kind of a number that is in its range.
fn kind_at(number: u8) -> Kind
    ensures { result ≡ kind_at number }
{
    Kind::try_from(number).unwrap_or(Kind::Other)
}

fn length_in(bytes: &[u8]) -> Length
    ensures { result ≡ length_in bytes.now }
{
    if byte_at(bytes, 1) == 0 {
        return Length::Fixed(byte_at(bytes, 2));
    }
    Length::Counted {
        place: byte_at(bytes, 2),
        mask: byte_at(bytes, 3),
        shift: byte_at(bytes, 4),
        unit: byte_at(bytes, 5),
        base: byte_at(bytes, 6),
    }
}

fn target_in(row: &RowAt) -> Target
    ensures { result ≡ target_in row.now.bytes.now row.now.begin }
{
    match row.byte(8) {
        0 => Target::Node(row.byte(9)),
        1 => Target::Done,
        _ => Target::Dropped,
    }
}

// A row as a record's bytes say it.
trait RowIn: Copy {
    // The row that the bytes from a place on say.
    ghost said: { List ℕ → ℕ → Self };

    fn row_in(row: &RowAt) -> Self
        ensures { result ≡ said row.now.bytes.now row.now.begin };
}

impl RowIn for TernaryRow {
    ghost said = { ternary_in };

    #[tactic(auto, using(crate::proofs::Behind::ternary_behind))]
    fn row_in(row: &RowAt) -> TernaryRow {
        if row.is_behind() {
            return TernaryRow {
                value: 0,
                mask: 0,
                target: Target::Node(0),
            };
        }
        TernaryRow {
            value: row.number4(0),
            mask: row.number4(4),
            target: target_in(row),
        }
    }
}

impl RowIn for RangeRow {
    ghost said = { range_in };

    #[tactic(auto, using(crate::proofs::Behind::range_behind))]
    fn row_in(row: &RowAt) -> RangeRow {
        if row.is_behind() {
            return RangeRow {
                low: 0,
                high: 0,
                target: Target::Node(0),
            };
        }
        RangeRow {
            low: row.number2(0),
            high: row.number2(2),
            target: target_in(row),
        }
    }
}

// The rows of a record; behind its last, what bytes of zero say.
fn all_rows<R: RowIn>(bytes: &[u8]) -> [R; 16]
    ensures { result ≡ each_row (R.said bytes.now) 16 }
{
    array::from_fn(|k| R::row_in(&RowAt::new(bytes, k)))
}

fn rows_in(bytes: &[u8]) -> Rows
    requires { (16 ≤ length bytes.now) × (slice_index bytes.now 14 ≤ 16) }
    ensures { rows_view (slice_index bytes.now 14) result ≡ rows_in bytes.now }
{
    if bytes[13] == 0 {
        Rows::Ternary(all_rows(bytes))
    } else {
        Rows::Range(all_rows(bytes))
    }
}

// The node of a record.
pub(crate) fn node_in(bytes: &[u8]) -> Node
    requires long { 16 ≤ length bytes.now }
    requires rows { slice_index bytes.now 14 ≤ 16 }
    requires places { slice_index bytes.now 8 ≤ 4 }
    ensures is { node_view result ≡ node_in bytes.now }
    ensures counts { NodeCounts result }
{
    Node {
        kind: kind_at(bytes[0]),
        length: length_in(bytes),
        place_count: bytes[8],
        places: [bytes[9], bytes[10], bytes[11], bytes[12]],
        row_count: bytes[14],
        rows: rows_in(bytes),
    }
}

// The graph of a file that numbers 1 to 3 do not refuse.
pub(crate) fn graph_in(file: &[u8]) -> Graph
    requires begun { 2 ≤ length file.now }
    requires few { slice_index file.now 0 ≤ 32 }
    requires pairs { pair_fault file.now ≡ None }
    requires bytes { byte_fault file.now ≡ None }
    ensures is { graph_view result ≡ nodes_in file.now }
    ensures counts { Counts result }
{
    let mut nodes = [Node::blank(); NODES];
    for (i, node) in nodes[..usize::from(file[0])].iter_mut().enumerate() {
        *node = node_in(Pair::of(file, i as u8).record());
    }
    Graph {
        count: file[0],
        nodes,
    }
}
