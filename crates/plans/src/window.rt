// How far a node and its chain reach into a packet.
ghost use Rattle.std.specs.Prelude.{◌≡◌, ◌+◌, ◌*◌, ◌≤◌, length};
ghost use Rattle.graphs.specs.View.{node_view, graph_view};
ghost use Rattle.walks.specs.Walk.{reads};
ghost use Rattle.walks.specs.Plans.{fixed_size, reach, span, window};
ghost use Rattle.plans.specs.Chains.{nodes_of};

use crate::chains::Chain;
use crate::path::Path;
use graphs::graph::{Graph, Length, Node};

/// The fewest bytes from the node's start on that hold every header and lookup byte of the node and
/// its chain.
pub fn window(graph: &Graph, node: u8, chain: &Chain) -> u16
    ensures { result ≡ window (graph_view graph.now) node (nodes_of chain.now) }
{
    Path::new(graph, node, chain.named_nodes()).window()
}

impl<'a> Path<'a> {
    fn window(&self) -> u16
        requires { length self.now.behind.now ≤ 3 }
        ensures is { result ≡ window (graph_view self.now.graph.now) self.now.node self.now.behind.now }
        ensures small { result ≤ 256 * (length self.now.behind.now + 1) }
    {
        let here = self.here();
        let own = span(&here);
        match self.rest() {
            None => own,
            Some(rest) => own.max(fixed_size(here.length) + rest.window()),
        }
    }
}

// The bytes that a node takes: its header, and its lookup places, which may lie behind it.
fn span(node: &Node) -> u16
    ensures is { result ≡ span (node_view node.now) }
    ensures small { result ≤ 256 }
{
    fixed_size(node.length).max(reach(node.lookup()))
}

/// The length of a fixed header; 0 for another.
pub fn fixed_size(length: Length) -> u16
    ensures is { result ≡ fixed_size length }
    ensures small { result ≤ 255 }
{
    match length {
        Length::Fixed(size) => u16::from(size),
        Length::Counted { .. } => 0,
    }
}

/// The fewest bytes from the node's start on that hold every byte which a step at the node reads: those
/// at its lookup places, and the one that a counted length is told by.
pub fn needs(node: &Node) -> u16
    ensures { result ≡ reach (reads (node_view node.now)) }
{
    let lookups = reach(node.lookup());
    match node.length {
        Length::Fixed(_) => lookups,
        Length::Counted { place, .. } => lookups.max(u16::from(place) + 1),
    }
}

// One more than the highest place.
fn reach(places: &[u8]) -> u16
    ensures is { result ≡ reach places.now }
    ensures small { result ≤ 256 }
{
    places
        .iter()
        .max()
        .map_or(0, |highest| u16::from(*highest) + 1)
}
