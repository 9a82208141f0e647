// Whether a graph is sound.
ghost use Rattle.std.specs.Prelude.{◌≡◌, ℕ, ◌<◌, length, IfSome, Option};
ghost use Rattle.refusals.specs.Searching.{fault_of};
ghost use Rattle.refusals.specs.Least.{Answers};
ghost use Rattle.headers.specs.Table.{minimum_in};
ghost use Rattle.graphs.specs.View.{NodeView, node_view, graph_view};
ghost use Rattle.graphs.specs.Faults.{of_graph};
ghost use Rattle.graphs.specs.declared.fault.GraphFault.{GraphFault};
ghost use Rattle.graphs.specs.Refusals.{GraphApplies};
ghost use Rattle.graphs.specs.Checking.{target_sound, covered_in, target_fault, covered_fault, short_fault, first_node, graph_fault};

use crate::fault::GraphFault;
use crate::graph::{Graph, Length, Node, Rows};
use crate::named::named;
use headers::table::KindTable;
use patterns::find::first_covered;
use patterns::row::Target;
use patterns::span::Span;
use patterns::ternary::Ternary;

/// Whether the graph is sound by a table of kinds. Refused by 4 (target), 5 (covered row) and 6
/// (short length), in this order, at the lowest node and row.
pub fn check_graph(table: &KindTable, graph: &Graph) -> Result<(), GraphFault>
    ensures is { fault_of result ≡ graph_fault (minimum_in table.now) (graph_view graph.now) }
    ensures answers { Answers of_graph (GraphApplies (minimum_in table.now) (graph_view graph.now)) (λ _. Unit {0}) result }
{
    first_fault(table, graph)
}

// The checks in their order.
fn first_fault(table: &KindTable, graph: &Graph) -> Result<(), GraphFault>
    ensures { fault_of result ≡ graph_fault (minimum_in table.now) (graph_view graph.now) }
{
    check_targets(graph)?;
    check_each(&CoverCheck, graph)?;
    check_lengths(table, graph)?;
    Ok(())
}

fn check_targets(graph: &Graph) -> Result<(), GraphFault>
    ensures { fault_of result ≡ first_node (target_fault (length (graph_view graph.now))) (graph_view graph.now) }
{
    let count = graph.size();
    check_each(&TargetCheck { count }, graph)
}

fn check_lengths(table: &KindTable, graph: &Graph) -> Result<(), GraphFault>
    ensures { fault_of result ≡ first_node (short_fault (minimum_in table.now)) (graph_view graph.now) }
{
    check_each(&LengthCheck { table }, graph)
}

// A check of one node at a time. A trait and no closure: its ghost member names what a check tells. A
// function over a closure would take that as a ghost argument, with a `requires` that each of the three
// calls has to meet.
trait NodeCheck {
    // What is told of node n.
    ghost told: { Self → ℕ → NodeView → Option GraphFault };

    fn check(&self, n: u8, node: &Node) -> Result<(), GraphFault>
        ensures { fault_of result ≡ told self.now n (node_view node.now) };
}

// The lowest node of which the check tells a fault.
fn check_each<C: NodeCheck>(check: &C, graph: &Graph) -> Result<(), GraphFault>
    ensures { fault_of result ≡ first_node (C.told check.now) (graph_view graph.now) }
{
    for (n, node) in graph.named_nodes().iter().enumerate() {
        check.check(n as u8, node)?;
    }
    Ok(())
}

// Number 4, in a graph of so many nodes.
#[derive(Clone, Copy)]
struct TargetCheck {
    count: u8,
}

impl NodeCheck for TargetCheck {
    ghost told = { λ s. target_fault s.count };

    fn check(&self, n: u8, node: &Node) -> Result<(), GraphFault> {
        (0..node.row_total())
            .find(|k| !target_sound(self.count, n, node.target(*k)))
            .map_or(Ok(()), |k| {
                Err(GraphFault::Target {
                    node: n,
                    row: k as u8,
                })
            })
    }
}

// Number 5.
#[derive(Clone, Copy)]
struct CoverCheck;

impl NodeCheck for CoverCheck {
    ghost told = { λ _. covered_fault };

    fn check(&self, n: u8, node: &Node) -> Result<(), GraphFault> {
        covered_in(node).map_or(Ok(()), |k| {
            Err(GraphFault::Covered {
                node: n,
                row: k as u8,
            })
        })
    }
}

// Number 6, by a table of kinds.
#[derive(Clone, Copy)]
struct LengthCheck<'a> {
    table: &'a KindTable,
}

impl NodeCheck for LengthCheck<'_> {
    ghost told = { λ s. short_fault (minimum_in s.table.now) };

    fn check(&self, n: u8, node: &Node) -> Result<(), GraphFault> {
        match node.length {
            Length::Fixed(length) => {
                if length < self.table.minimum(node.kind) {
                    return Err(GraphFault::Short { node: n });
                }
                Ok(())
            }
            Length::Counted { .. } => Ok(()),
        }
    }
}

fn target_sound(count: u8, n: u8, target: Target) -> bool
    ensures { result ≡ target_sound count n target }
{
    match target {
        Target::Node(t) => n < t && t < count,
        Target::Done | Target::Dropped => true,
    }
}

fn covered_in(node: &Node) -> Option<usize>
    ensures is { result ≡ covered_in (node_view node.now).rows }
    ensures within { IfSome result (λ i. i < 256) }
{
    match &node.rows {
        Rows::Ternary(rows) => first_covered::<Ternary>(named(rows, node.row_count)),
        Rows::Range(rows) => first_covered::<Span>(named(rows, node.row_count)),
    }
}
