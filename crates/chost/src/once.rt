// A tap that loads once and reads once.
ghost use Rattle.std.specs.Prelude.{◌≡◌, List, length, None};
ghost use Rattle.refusals.specs.Searching.{fault_of};
ghost use Rattle.headers.specs.declared.mark.Mark.{Mark};
ghost use Rattle.stores.specs.declared.question.Question.{Question};
ghost use Rattle.walks.specs.declared.outcome.Outcome.{Outcome};
ghost use Rattle.chost.specs.Once.{refused_by, ReadByFiles, AnsweredBy, LentEnough, Once};

use headers::mark::Mark;
use readers::read::Reading;
use refusals::refusal::Refusal;
use stores::listing::Listing;
use taps::tap::Tap;

// Loads a graph file and a plan on a new tap over a listing store, and reads a packet.
pub(crate) fn read_once(
    graph: &[u8],
    plan: &[u8],
    packet: &[u8],
    marks: &mut [Mark],
) -> Result<Reading, Refusal>
    ensures is { fault_of result ≡ refused_by graph.now plan.now (length packet.now) (length marks.old) }
    ensures lent { LentEnough (length marks.old) result }
    ensures read { refused_by graph.now plan.now (length packet.now) (length marks.old) ≡ None →
        (ms : List Mark) (o : Outcome) (qs : List Question) →
        ReadByFiles graph.now plan.now packet.now ms o qs →
        AnsweredBy ms o qs result marks.new }
    ensures once { Once graph.now plan.now packet.now marks.old result marks.new }
{
    let mut tap: Tap<Listing> = Tap::new(Listing::new());
    tap.load(graph, plan)?;
    Ok(tap.read(packet, marks)?)
}
