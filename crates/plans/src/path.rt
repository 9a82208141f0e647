// A node of a graph, and the nodes behind it.
ghost use Rattle.std.specs.Prelude.{◌≡◌, true, false, [], ◌∷◌};
ghost use Rattle.std.specs.Option.{MatchOption};
ghost use Rattle.graphs.specs.View.{node_view, node_itself, graph_view, node_at};
ghost use Rattle.walks.specs.Rows.{leads_to};
ghost use Rattle.plans.specs.Chains.{leads_on};

use crate::nodes::leads_to;
use graphs::graph::{Graph, Node};
use patterns::row::Target;

/// A node of a graph, and the nodes behind it that are taken in one look with it.
#[derive(Clone, Copy)]
pub struct Path<'a> {
    pub graph: &'a Graph,
    pub node: u8,
    pub behind: &'a [u8],
}

impl<'a> Path<'a> {
    /// A node of the graph, and the nodes behind it.
    pub fn new(graph: &'a Graph, node: u8, behind: &'a [u8]) -> Path<'a>
        ensures graph { result.graph.now ≡ graph.now }
        ensures node { result.node ≡ node }
        ensures behind { result.behind.now ≡ behind.now }
    {
        Path {
            graph,
            node,
            behind,
        }
    }

    /// The node that the path begins at.
    pub fn here(&self) -> Node
        ensures is { node_view result ≡ node_at (graph_view self.now.graph.now) self.now.node }
        ensures whole { result ≡ node_itself self.now.graph.now self.now.node }
    {
        self.graph.node(self.node)
    }

    /// The path from the next node on; none at the last.
    pub fn rest(&self) -> Option<Path<'a>>
        ensures { MatchOption result (self.now.behind.now ≡ []) (λ rest. (rest.graph.now ≡ self.now.graph.now) × (self.now.behind.now ≡ rest.node ∷ rest.behind.now)) }
    {
        let (next, behind) = self.behind.split_first()?;
        Some(Path::new(self.graph, *next, behind))
    }

    /// The path from the next node on, where a target is that node; none where it is not.
    pub fn rest_to(&self, target: Target) -> Option<Path<'a>>
        ensures { MatchOption result (leads_on self.now.behind.now target ≡ false) (λ rest. (rest.graph.now ≡ self.now.graph.now) × ((self.now.behind.now ≡ rest.node ∷ rest.behind.now) × (leads_to rest.node target ≡ true))) }
    {
        let rest = self.rest()?;
        leads_to(rest.node, target).then_some(rest)
    }
}
