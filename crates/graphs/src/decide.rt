// Which row of a node decides on a key.
ghost use Rattle.std.specs.Prelude.{◌≡◌, ◌<◌, IfSome};
ghost use Rattle.graphs.specs.View.{node_view, graph_view, row_count, node_at, target_of};
ghost use Rattle.graphs.specs.Deciding.{fitting, decide};

use crate::graph::{Graph, Node, Rows};
use crate::named::named;
use patterns::find::first_fit;
use patterns::row::Target;
use patterns::span::Span;
use patterns::ternary::Ternary;

impl Graph {
    /// The target of the node's first row that the key fits; none if no row fits or the graph has
    /// no such node. The key is the lookup bytes, the first place topmost; ranges look at its upper
    /// half.
    pub fn decide(&self, node: u8, key: u32) -> Option<Target>
        ensures { result ≡ decide (node_at (graph_view self.now) node).rows key }
    {
        let node = self.named_nodes().get(usize::from(node))?;
        node.decide(key)
    }
}

impl Node {
    fn decide(&self, key: u32) -> Option<Target>
        ensures { result ≡ decide (node_view self.now).rows key }
    {
        self.fitting(key).map(|row| self.target(row))
    }

    fn fitting(&self, key: u32) -> Option<usize>
        ensures is { result ≡ fitting (node_view self.now).rows key }
        ensures within { IfSome result (λ k. k < row_count (node_view self.now).rows) }
    {
        match &self.rows {
            Rows::Ternary(rows) => first_fit::<Ternary>(named(rows, self.row_count), key),
            Rows::Range(rows) => {
                first_fit::<Span>(named(rows, self.row_count), (key >> 16) as u16)
            }
        }
    }

    pub(crate) fn target(&self, row: usize) -> Target
        requires { row < row_count (node_view self.now).rows }
        ensures { result ≡ target_of (node_view self.now).rows row }
    {
        match &self.rows {
            Rows::Ternary(rows) => named(rows, self.row_count)[row].target,
            Rows::Range(rows) => named(rows, self.row_count)[row].target,
        }
    }
}
