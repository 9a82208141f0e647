// A packet read one header at a time, straight from the graph.
ghost use Rattle.std.specs.Prelude.{◌≡◌, ◌≤◌, length, IfOk, OnErr};
ghost use Rattle.refusals.specs.Searching.{fault_of};
ghost use Rattle.refusals.specs.Least.{Answers};
ghost use Rattle.headers.specs.Table.{minimum_in, standard_table, FieldsLieInside};
ghost use Rattle.graphs.specs.View.{graph_view};
ghost use Rattle.walker.specs.Faults.{of_walk};
ghost use Rattle.walker.specs.Refusals.{most_bytes, most_marks, WalkApplies, walk_fault, NoFault};
ghost use Rattle.walker.specs.Walked.{MarkedWithFields, WalkedAs};

use crate::fault::WalkFault;
use crate::step::{Course, Step};
use graphs::check::check_graph;
use graphs::graph::Graph;
use headers::mark::Mark;
use headers::table::KindTable;
use walks::outcome::Outcome;

/// The most bytes of a packet that is walked.
pub const MOST_PACKET: usize = 9600;

/// The most marks that a walk writes.
pub const MOST_MARKS: usize = 32;

/// How a walk ended, and how many headers it marked.
#[derive(Clone, Copy, PartialEq, Eq, Debug)]
pub struct Walked {
    pub outcome: Outcome,
    pub marks: usize,
}

/// Walks a packet through a graph from node 0 at offset 0, and writes each header's mark in order
/// to the front of `marks`; those behind stay. Each mark has its fields: none is refused by 17.
/// Refused by 4 to 6 as `check_graph` refuses the graph, then by 10 if the packet has more than
/// 9,600 bytes, then by 11 if there are fewer than 32 marks; a refused call changes nothing.
pub fn walk(graph: &Graph, packet: &[u8], marks: &mut [Mark]) -> Result<Walked, WalkFault>
    ensures is { fault_of result ≡ walk_fault (minimum_in standard_table) (graph_view graph.now) (length packet.now) (length marks.old) }
    ensures answers { Answers of_walk (WalkApplies (minimum_in standard_table) (graph_view graph.now) (length packet.now) (length marks.old)) (WalkedAs (minimum_in standard_table) (graph_view graph.now) packet.now marks.old marks.new) result }
    ensures fields { IfOk result (MarkedWithFields standard_table packet.now marks.new) }
    ensures kept { OnErr result (marks.new ≡ marks.old) }
{
    walk_by(&KindTable::standard(), graph, packet, marks)
}

/// As `walk`, with the fewest bytes of each kind taken from the table that is given. Refused as
/// `walk` is. Where the fields of a kind lie inside its shortest header, each mark has its fields.
pub fn walk_by(
    table: &KindTable,
    graph: &Graph,
    packet: &[u8],
    marks: &mut [Mark],
) -> Result<Walked, WalkFault>
    ensures is { fault_of result ≡ walk_fault (minimum_in table.now) (graph_view graph.now) (length packet.now) (length marks.old) }
    ensures answers { Answers of_walk (WalkApplies (minimum_in table.now) (graph_view graph.now) (length packet.now) (length marks.old)) (WalkedAs (minimum_in table.now) (graph_view graph.now) packet.now marks.old marks.new) result }
    ensures fields { FieldsLieInside table.now → IfOk result (MarkedWithFields table.now packet.now marks.new) }
    ensures kept { OnErr result (marks.new ≡ marks.old) }
{
    first_fault(table, graph, packet.len(), marks.len())?;
    let course = Course {
        table,
        graph,
        packet,
    };
    Ok(course.walk(marks))
}

// What a walk is refused for, in the order of the numbers.
fn first_fault(table: &KindTable, graph: &Graph, size: usize, room: usize) -> Result<(), WalkFault>
    ensures { fault_of result ≡ walk_fault (minimum_in table.now) (graph_view graph.now) size room }
{
    check_graph(table, graph)?;
    if size > MOST_PACKET {
        return Err(WalkFault::LongPacket);
    }
    if room < MOST_MARKS {
        return Err(WalkFault::FewMarks);
    }
    Ok(())
}

impl<'a> Course<'a> {
    // The walk itself, through a sound graph.
    fn walk(&self, marks: &mut [Mark]) -> Walked
        requires sound { NoFault (minimum_in self.now.table.now) (graph_view self.now.graph.now) }
        requires fits { length self.now.packet.now ≤ most_bytes }
        requires room { most_marks ≤ length marks.old }
        ensures { WalkedAs (minimum_in self.now.table.now) (graph_view self.now.graph.now) self.now.packet.now marks.old marks.new result }
    {
        let mut node = 0;
        let mut at = 0;
        // The marks go to the front of the caller's slice, and a device has no heap: so a count.
        let mut count = 0;
        loop {
            match self.step(node, at) {
                Step::Stop(outcome) => {
                    return Walked {
                        outcome,
                        marks: count,
                    };
                }
                Step::Last { mark, outcome } => {
                    marks[count] = mark;
                    return Walked {
                        outcome,
                        marks: count + 1,
                    };
                }
                Step::On {
                    mark,
                    node: next,
                    at: past,
                } => {
                    marks[count] = mark;
                    count += 1;
                    node = next;
                    at = past;
                }
            }
        }
    }
}
