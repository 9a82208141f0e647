// The node of a number, and the places that it looks up.
ghost use Rattle.std.specs.Prelude.{◌≡◌, ◌≤◌, [], length};
ghost use Rattle.graphs.specs.View.{node_view, blank_node, graph_view, node_at, node_itself};

use crate::graph::{Graph, Length, Node, PLACES, ROWS, Rows};
use crate::named::named;
use headers::kinds::Kind;
use patterns::row::{Target, TernaryRow};

impl Graph {
    /// How many nodes the graph's count names.
    pub fn size(&self) -> u8
        ensures is { result ≡ length (graph_view self.now) }
        ensures few { result ≤ 32 }
    {
        self.named_nodes().len() as u8
    }

    /// The node of a number, as the graph has it; the blank node past the nodes that the graph's
    /// count names, which are at most 32.
    pub fn node(&self, number: u8) -> Node
        ensures whole { result ≡ node_itself self.now number }
        ensures is { node_view result ≡ node_at (graph_view self.now) number }
        ensures few { length (graph_view self.now) ≤ 32 }
    {
        let nodes = self.named_nodes();
        // The blank node is made only where it is handed out.
        match nodes.get(usize::from(number)) {
            Some(node) => *node,
            None => Node::blank(),
        }
    }
}

impl Node {
    /// The blank node: of a fixed length 0, it looks up nothing and has no rows.
    pub fn blank() -> Node
        ensures whole { result ≡ blank_node }
        ensures is { node_view result ≡ node_at [] 0 }
    {
        Node {
            kind: Kind::Ethernet,
            length: Length::Fixed(0),
            place_count: 0,
            places: [0; PLACES],
            row_count: 0,
            rows: Rows::Ternary([TernaryRow {
                value: 0,
                mask: 0,
                target: Target::Done,
            }; ROWS]),
        }
    }

    /// The lookup places that the node's count names.
    pub fn lookup(&self) -> &[u8]
        ensures is { result.now ≡ (node_view self.now).places }
        ensures few { length result.now ≤ 4 }
    {
        named(&self.places, self.place_count)
    }
}
