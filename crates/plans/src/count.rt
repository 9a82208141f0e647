// How many rows graph and plan need, without listing them.
ghost use Rattle.std.specs.Prelude.{◌≡◌, ◌+◌, ◌*◌, ◌≤◌, min, [], length};
ghost use Rattle.graphs.specs.View.{graph_view, node_at};
ghost use Rattle.walks.specs.Plans.{piece_count, pieces_to, entry_count, chain_count, store_count};
ghost use Rattle.plans.specs.Chains.{chain_of};

use crate::chains::Chains;
use crate::nodes::{piece_count, pieces_to};
use crate::path::Path;
use graphs::graph::{Graph, Node};

/// The most rows that are told apart.
pub const MOST: u32 = 65535;

// A graph and its chains are two arguments, as in `window`: `Checked` of a crate above says that both
// were checked.

/// How many rows a store has to hold for graph and plan; 65,535 if they are more.
pub fn row_count(graph: &Graph, chains: &Chains) -> u16
    ensures { result ≡ min (store_count (graph_view graph.now) (chain_of chains.now)) 65535 }
{
    let rows: u32 = (0..graph.size())
        .map(|node| node_rows(graph, chains, node))
        .sum();
    rows.min(MOST) as u16
}

// The rows of a node by itself, and those of it with its chain; each 65,535 if they are more.
fn node_rows(graph: &Graph, chains: &Chains, node: u8) -> u32
    ensures is { result ≡ min (entry_count (graph_view graph.now) node []) 65535 + min (chain_count (graph_view graph.now) node (chain_of chains.now node)) 65535 }
    ensures few { result ≤ 131070 }
{
    let chain = chains.chain(node);
    let alone = Path::new(graph, node, &[]);
    let chained = Path::new(graph, node, chain.named_nodes());
    alone.rows() + chained.chain_rows()
}

impl<'a> Path<'a> {
    // The rows of the node with the nodes behind it, 65,535 if they are more; none where there are
    // no nodes behind it.
    fn chain_rows(&self) -> u32
        ensures { result ≡ min (chain_count (graph_view self.now.graph.now) self.now.node self.now.behind.now) 65535 }
    {
        if self.behind.is_empty() {
            return 0;
        }
        self.rows()
    }

    // The rows of the node and the nodes behind it, 65,535 if they are more.
    fn rows(&self) -> u32
        ensures { result ≡ min (entry_count (graph_view self.now.graph.now) self.now.node self.now.behind.now) 65535 }
    {
        let own = self.pieces();
        match self.rest() {
            None => own.min(MOST),
            Some(rest) => with_rest(own, self.pieces_leading_to(rest.node), rest.rows()),
        }
    }

    // The pieces of the node. It is lent: to copy it would take longer than to count them.
    fn pieces(&self) -> u32
        ensures { result ≡ piece_count (node_at (graph_view self.now.graph.now) self.now.node).rows }
    {
        match self.graph.named_nodes().get(usize::from(self.node)) {
            Some(here) => piece_count(here),
            None => piece_count(&Node::blank()),
        }
    }

    // Those of them that lead to another node.
    fn pieces_leading_to(&self, to: u8) -> u32
        ensures { result ≡ pieces_to to (node_at (graph_view self.now.graph.now) self.now.node).rows }
    {
        match self.graph.named_nodes().get(usize::from(self.node)) {
            Some(here) => pieces_to(here, to),
            None => pieces_to(&Node::blank(), to),
        }
    }
}

// The rows of a node whose pieces are `own`, where for each of the `to` that lead on there are also
// the rows of the rest; 65,535 if they are more.
fn with_rest(own: u32, to: u32, rest: u32) -> u32
    ensures { result ≡ min (own + to * rest) 65535 }
{
    own.saturating_add(to.saturating_mul(rest)).min(MOST)
}
