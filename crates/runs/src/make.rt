// A single call.
ghost use Rattle.std.specs.Prelude.{◌≡◌, length};
ghost use Rattle.taps.specs.Plain.{PlainTap};
ghost use Rattle.taps.specs.Following.{Follows};
ghost use Rattle.runs.specs.Following.{AnsweredAs, AnsweredOnly};

use crate::calls::{Answer, Call, Reply};
use headers::mark::Mark;
use stores::store::Store;
use taps::tap::Tap;

/// Makes a call. A read is lent the first `room` of the marks, or all if they are fewer; the marks
/// behind those that it writes stay, and a load and a report change none.
pub fn make_call<S: Store>(tap: &mut Tap<S>, call: Call<'_>, marks: &mut [Mark]) -> Answer
    ensures answered { (p : PlainTap) → Follows S.Store.meaning tap.old p
        → AnsweredAs S.Store.meaning p tap.old tap.new call.entry marks.old result marks.new }
    // A plain tap answers a call in one way, with one choice of marks.
    ensures only { (p : PlainTap) → Follows S.Store.meaning tap.old p
        → AnsweredOnly S.Store.meaning p tap.old tap.new call.entry marks.old result marks.new }
{
    match call {
        Call::Load { file, plan } => Answer::Load(tap.load(file, plan)),
        Call::Read { packet, room } => {
            let lent = room.min(marks.len());
            Answer::Read(tap.read(packet, &mut marks[..lent]))
        }
        Call::Report => Answer::Report(tap.report()),
    }
}

// Makes a call in the place of its reply.
pub(crate) fn make_in_place<S: Store, const N: usize>(
    tap: &mut Tap<S>,
    call: Call<'_>,
    reply: &mut Reply<N>,
)
    ensures answered { (p : PlainTap) → Follows S.Store.meaning tap.old p
        → AnsweredAs S.Store.meaning p tap.old tap.new call.entry reply.old.marks
        reply.new.answer reply.new.marks }
    ensures size { length reply.old.marks ≡ N }
{
    reply.answer = make_call(tap, call, &mut reply.marks);
}
