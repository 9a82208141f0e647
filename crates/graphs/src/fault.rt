// What a graph is refused for.
ghost use Rattle.std.specs.Prelude.{◌≡◌};
ghost use Rattle.graphs.specs.Faults.{of_graph};

use refusals::refusal::{Layer, Refusal};

/// A row's target that is no later node of the graph, a row that an earlier one covers, a fixed
/// length under the kind's minimum.
#[derive(Clone, Copy, PartialEq, Eq, Debug)]
pub enum GraphFault {
    Target { node: u8, row: u8 },
    Covered { node: u8, row: u8 },
    Short { node: u8 },
}

/// The fault's number, layer and place.
impl From<GraphFault> for Refusal {
    ghost from_gives = { λ fault refusal. refusal ≡ of_graph fault };

    fn from(fault: GraphFault) -> Refusal {
        let (number, node, row) = match fault {
            GraphFault::Target { node, row } => (4, node, row),
            GraphFault::Covered { node, row } => (5, node, row),
            GraphFault::Short { node } => (6, node, 0),
        };
        Refusal::at(number, Layer::Graph, u16::from(node), u16::from(row))
    }
}
