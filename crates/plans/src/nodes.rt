// What a node's rows are to a plan.
ghost use Rattle.std.specs.Prelude.{◌≡◌, ℕ, ◌≤◌, length, filter};
ghost use Rattle.std.specs.List.{list_any, sum_by};
ghost use Rattle.patterns.specs.Splitting.{split_of};
ghost use Rattle.patterns.specs.declared.row.Target.{Target as Goal};
ghost use Rattle.graphs.specs.View.{node_view};
ghost use Rattle.walks.specs.Rows.{leads_to};
ghost use Rattle.walks.specs.Plans.{piece_count, pieces_to};
ghost use Rattle.plans.specs.Checking.{is_fixed, any_to};

use graphs::graph::{Length, Node, Rows};
use graphs::named::named;
use patterns::block::Block;
use patterns::pattern::Pattern;
use patterns::row::{RangeRow, Target, TernaryRow};
use patterns::span::Span;
use patterns::split::split;

// Whether a length is fixed.
pub(crate) fn is_fixed(length: Length) -> bool
    ensures { result ≡ is_fixed length }
{
    matches!(length, Length::Fixed(_))
}

/// Whether a target is the node of a number.
pub fn leads_to(node: u8, target: Target) -> bool
    ensures { result ≡ leads_to node target }
{
    matches!(target, Target::Node(to) if node == to)
}

// Whether some row of the node leads to another.
pub(crate) fn any_to(node: &Node, to: u8) -> bool
    ensures { result ≡ any_to to (node_view node.now).rows }
{
    match &node.rows {
        Rows::Ternary(rows) => any_row_to(named(rows, node.row_count), to),
        Rows::Range(rows) => any_row_to(named(rows, node.row_count), to),
    }
}

// How many ternary rows the node's rows are: a range is as many as it has blocks.
#[tactic(auto, using(crate::proofs::Rowing::sum_ones, crate::proofs::Rowing::sum_blocks))]
pub(crate) fn piece_count(node: &Node) -> u32
    ensures { result ≡ piece_count (node_view node.now).rows }
{
    match &node.rows {
        Rows::Ternary(rows) => pieces_in(named(rows, node.row_count)),
        Rows::Range(rows) => pieces_in(named(rows, node.row_count)),
    }
}

// How many of them lead to another node.
pub(crate) fn pieces_to(node: &Node, to: u8) -> u32
    ensures { result ≡ pieces_to to (node_view node.now).rows }
{
    match &node.rows {
        Rows::Ternary(rows) => pieces_in_to(named(rows, node.row_count), to),
        Rows::Range(rows) => pieces_in_to(named(rows, node.row_count), to),
    }
}

// A row of either sort. Each match on a node's rows above has two arms with one text: the rows of the
// arms differ in type, so what is done with them is a generic function and no closure.
trait AnyRow: Copy {
    // Where it leads.
    ghost goal: { Self → Goal };

    // How many ternary rows it is.
    ghost size: { Self → ℕ };

    fn goal(self) -> Target
        ensures { result ≡ goal self };

    fn size(self) -> u32
        ensures is { result ≡ size self }
        ensures few { result ≤ 30 };
}

impl AnyRow for TernaryRow {
    ghost goal = { λ r. r.target };

    ghost size = { λ r. 1 };

    fn goal(self) -> Target {
        self.target
    }

    fn size(self) -> u32 {
        1
    }
}

impl AnyRow for RangeRow {
    ghost goal = { λ r. r.target };

    ghost size = { λ r. length (split_of r.low r.high) };

    fn goal(self) -> Target {
        self.target
    }

    #[tactic(auto, using(crate::proofs::Rowing::span_blocks))]
    fn size(self) -> u32 {
        let Some(span) = Span::make(&self) else {
            return 0;
        };
        split(&span, &mut [Block { value: 0, mask: 0 }; 30]) as u32
    }
}

fn any_row_to<R: AnyRow>(rows: &[R], to: u8) -> bool
    ensures { result ≡ list_any (λ x. leads_to to (R.AnyRow.goal x)) rows.now }
{
    rows.iter().any(|row| leads_to(to, row.goal()))
}

fn pieces_in<R: AnyRow>(rows: &[R]) -> u32
    requires { length rows.now ≤ 16 }
    ensures { result ≡ sum_by R.AnyRow.size rows.now }
{
    rows.iter().map(|row| row.size()).sum()
}

fn pieces_in_to<R: AnyRow>(rows: &[R], to: u8) -> u32
    requires { length rows.now ≤ 16 }
    ensures { result ≡ sum_by R.AnyRow.size (filter (λ x. leads_to to (R.AnyRow.goal x)) rows.now) }
{
    rows.iter()
        .filter(|row| leads_to(to, row.goal()))
        .map(|row| row.size())
        .sum()
}
