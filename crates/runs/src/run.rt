// Any succession of calls.
ghost use Rattle.std.specs.Prelude.{◌≡◌, min, length, take, drop};
ghost use Rattle.taps.specs.Plain.{PlainTap};
ghost use Rattle.taps.specs.Following.{Follows};
ghost use Rattle.runs.specs.Following.{RunAs, RunOnly};

use crate::calls::{Call, Reply};
use crate::make::make_in_place;
use stores::store::Store;
use taps::tap::Tap;

/// Makes calls one after the other, each in the place of its reply, as long as there are calls and
/// places. Answers how many calls were made; the places behind stay.
pub fn run<S: Store, const N: usize>(
    tap: &mut Tap<S>,
    calls: &[Call<'_>],
    replies: &mut [Reply<N>],
) -> usize
    ensures count { result ≡ min (length calls.now) (length replies.old) }
    ensures run { (p : PlainTap) → Follows S.Store.meaning tap.old p
        → RunAs S.Store.meaning p tap.old tap.new (take result calls.now)
        (take result replies.old) (take result replies.new) }
    // Plain taps answer such calls in one way, with one choice of marks.
    ensures only { (p : PlainTap) → Follows S.Store.meaning tap.old p
        → RunOnly S.Store.meaning p tap.old tap.new (take result calls.now)
        (take result replies.old) (take result replies.new) }
    ensures rest { drop result replies.new ≡ drop result replies.old }
{
    let count = calls.len().min(replies.len());
    // A zip with the replies was tried: its invariant has no name for what is written to them.
    for i in 0..count {
        make_in_place(tap, calls[i], &mut replies[i]);
    }
    count
}
