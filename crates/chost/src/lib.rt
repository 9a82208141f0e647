// The tap as a C host calls it: one function, which reads one packet by a graph and a plan.

#![tactic(auto)]

ghost use Rattle.std.specs.Prelude.{◌≡◌, ℕ, List, length, Some, None};
ghost use Rattle.refusals.specs.declared.refusal.Refusal.{Refusal};
ghost use Rattle.headers.specs.declared.mark.Mark.{Mark};
ghost use Rattle.stores.specs.declared.question.Question.{Question};
ghost use Rattle.walks.specs.declared.outcome.Outcome.{Outcome};
ghost use Rattle.walks.specs.Outcomes.{ending_number};
ghost use Rattle.chost.specs.Number.{number_of};
ghost use Rattle.chost.specs.Area.{room, laid, with_front};
ghost use Rattle.chost.specs.Once.{refused_by, ReadByFiles, reading_of};
ghost use Rattle.chost.specs.Called.{Called};

mod area;
mod number;
mod once;
mod tell;

use area::room;
use once::read_once;
use taps::tap::NO_MARK;
use tell::tell;
use walker::walk::MOST_MARKS;

/// Loads a graph file and a plan on a new tap over a listing store, and reads a packet. Answers the
/// number of the ending, with what was read laid out at the front of the area and the bytes behind it
/// as they were; or a refusal by 1 to 11 as its number with its places above, and then the area stays.
/// An area has room for 32 marks from 198 bytes on.
#[unsafe(no_mangle)]
pub extern "C" fn tap_read(graph: &[u8], plan: &[u8], packet: &[u8], area: &mut [u8]) -> u64
    ensures refused { (e : Refusal) →
        refused_by graph.now plan.now (length packet.now) (room (length area.old)) ≡ Some e →
        (result ≡ number_of e) × (area.new ≡ area.old) }
    ensures read { refused_by graph.now plan.now (length packet.now) (room (length area.old)) ≡ None →
        (ms : List Mark) (o : Outcome) (qs : List Question) →
        ReadByFiles graph.now plan.now packet.now ms o qs →
        (result ≡ ending_number o.ending) × (area.new ≡ with_front (laid (reading_of ms o qs) ms) area.old) }
    ensures called { Called graph.now plan.now packet.now area.old result area.new }
    ensures only { (other : ℕ) (after : List ℕ) →
        Called graph.now plan.now packet.now area.old other after →
        (other ≡ result) × (after ≡ area.new) }
{
    let mut marks = [NO_MARK; MOST_MARKS];
    let answer = read_once(graph, plan, packet, &mut marks[..room(area.len())]);
    tell(answer, &marks, area)
}
