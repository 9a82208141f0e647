// One step of a walk: a header, and where the deciding row leads.
ghost use Rattle.std.specs.Prelude.{◌≡◌, ◌+◌, ◌≤◌, min, length};
ghost use Rattle.headers.specs.Table.{minimum_in};
ghost use Rattle.graphs.specs.View.{node_view, graph_view, node_at};
ghost use Rattle.walker.specs.Refusals.{most_bytes};
ghost use Rattle.walker.specs.Steps.{marked, step_at, Stepped};

use crate::header::HeaderAt;
use graphs::graph::{Graph, Node};
use headers::kinds::Kind;
use headers::mark::Mark;
use headers::table::KindTable;
use patterns::row::Target;
use walks::outcome::{Ending, Outcome};

/// What a step comes to: the header is refused; it is marked and the walk ends there; or it is
/// marked and the walk goes on at a node and an offset.
#[derive(Clone, Copy)]
pub enum Step {
    Stop(Outcome),
    Last { mark: Mark, outcome: Outcome },
    On { mark: Mark, node: u8, at: u32 },
}

/// A packet that is walked through a graph, by a table of kinds.
#[derive(Clone, Copy)]
pub(crate) struct Course<'a> {
    pub(crate) table: &'a KindTable,
    pub(crate) graph: &'a Graph,
    pub(crate) packet: &'a [u8],
}

impl<'a> Course<'a> {
    /// One step from a node at an offset. A refused header stops the walk.
    pub(crate) fn step(&self, node: u8, at: u32) -> Step
        requires { (at ≤ length self.now.packet.now) × (length self.now.packet.now ≤ most_bytes) }
        ensures steps { Stepped (minimum_in self.now.table.now) (graph_view self.now.graph.now) self.now.packet.now node at result }
        ensures few { length (graph_view self.now.graph.now) ≤ 32 }
    {
        // The node is lent: to copy it would take as long as all else of the step.
        match self.graph.named_nodes().get(usize::from(node)) {
            Some(here) => self.step_from(here, node, at),
            None => self.step_from(&Node::blank(), node, at),
        }
    }

    // One step from the node of a number, as it is, at an offset.
    fn step_from(&self, here: &Node, node: u8, at: u32) -> Step
        requires here { node_view here.now ≡ node_at (graph_view self.now.graph.now) node }
        requires at { at ≤ length self.now.packet.now }
        requires packet { length self.now.packet.now ≤ most_bytes }
        ensures { Stepped (minimum_in self.now.table.now) (graph_view self.now.graph.now) self.now.packet.now node at result }
    {
        let places = here.lookup();
        let header = HeaderAt {
            packet: self.packet,
            at,
        };
        match header.check(self.table.minimum(here.kind), here.length, places) {
            Err(ending) => Step::Stop(Outcome {
                ending,
                node,
                offset: at as u16,
            }),
            Ok(size) => {
                let mark = mark_of(node, here.kind, at, size);
                follow(mark, self.graph.decide(node, header.key(places)))
            }
        }
    }
}

/// A number as a mark tells it: 65,535 for each that is above.
pub fn told(number: u32) -> u16
    ensures { result ≡ min number 65535 }
{
    number.min(65535) as u16
}

/// The mark of a header.
pub fn mark_of(node: u8, kind: Kind, at: u32, size: u32) -> Mark
    ensures { result ≡ marked node kind at size }
{
    Mark {
        node,
        kind: u8::from(kind),
        offset: told(at),
        length: told(size),
    }
}

/// Where the target of the deciding row leads behind a marked header, at 65,535 if that is further.
pub fn follow(mark: Mark, target: Option<Target>) -> Step
    ensures { result ≡ step_at mark target (min (mark.offset + mark.length) 65535) }
{
    let past = mark.offset.saturating_add(mark.length);
    match target {
        None => last(mark, Ending::Unfit, mark.offset),
        Some(Target::Dropped) => last(mark, Ending::Dropped, mark.offset),
        Some(Target::Done) => last(mark, Ending::Done, past),
        Some(Target::Node(node)) => Step::On {
            mark,
            node,
            at: u32::from(past),
        },
    }
}

// The walk ends at a marked header.
fn last(mark: Mark, ending: Ending, offset: u16) -> Step
    ensures { result ≡ Step.Last mark (record { ending = ending; node = mark.node; offset = offset }) }
{
    Step::Last {
        mark,
        outcome: Outcome {
            ending,
            node: mark.node,
            offset,
        },
    }
}
