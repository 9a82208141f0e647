// Two taps side by side.
ghost use Rattle.std.specs.Prelude.{◌≡◌, min, length, take, drop};
ghost use Rattle.runs.specs.Following.{EndsThere};
ghost use Rattle.runs.specs.Promises.{LoadsRight, Promised};
ghost use Rattle.runs.specs.Agreement.{Agree};

use crate::calls::{Call, Reply};
use crate::run::run;
use stores::store::Store;
use taps::tap::Tap;

/// Two taps after their calls, and how many each was made.
#[derive(Drop)]
pub struct Both<S, R> {
    pub left: Tap<S>,
    pub right: Tap<R>,
    pub left_made: usize,
    pub right_made: usize,
}

/// Two new taps, each over its own store. Each is made its own calls, one after the other, as long as
/// there are calls and places for their replies (`left_made`, `right_made`), and keeps what is promised
/// of a tap (`left`, `right`). A load is accepted exactly where no refusal applies, and else refused by
/// the least that does (`left_loads`, `right_loads`). Where the calls are the same but for the plans, and
/// both accept the same loads, the taps agree on all reports, and on all reads but their questions
/// (`agree`). Both go on from where their plain taps are (`left_follows`, `right_follows`). Places behind
/// the replies stay (`left_rest`, `right_rest`).
pub fn side_by_side<S: Store, R: Store, const N: usize>(
    left: S,
    right: R,
    left_calls: &[Call<'_>],
    right_calls: &[Call<'_>],
    left_replies: &mut [Reply<N>],
    right_replies: &mut [Reply<N>],
) -> Both<S, R>
    ensures left_made { result.left_made ≡ min (length left_calls.now) (length left_replies.old) }
    ensures right_made { result.right_made ≡ min (length right_calls.now) (length right_replies.old) }
    ensures left { let n = result.left_made in
        Promised S.Store.meaning left result.left (take n left_calls.now)
        (take n left_replies.old) (take n left_replies.new) }
    ensures right { let n = result.right_made in
        Promised R.Store.meaning right result.right (take n right_calls.now)
        (take n right_replies.old) (take n right_replies.new) }
    ensures left_loads { let n = result.left_made in
        LoadsRight (S.Store.meaning left).capacity (take n left_calls.now) (take n left_replies.new) }
    ensures right_loads { let n = result.right_made in
        LoadsRight (R.Store.meaning right).capacity (take n right_calls.now) (take n right_replies.new) }
    ensures agree { let n = result.left_made in
        let m = result.right_made in
        Agree (take n left_calls.now) (take m right_calls.now)
        (take n left_replies.new) (take m right_replies.new) }
    ensures left_follows { let n = result.left_made in
        EndsThere S.Store.meaning left result.left (take n left_calls.now)
        (take n left_replies.old) (take n left_replies.new) }
    ensures right_follows { let n = result.right_made in
        EndsThere R.Store.meaning right result.right (take n right_calls.now)
        (take n right_replies.old) (take n right_replies.new) }
    ensures left_rest { drop result.left_made left_replies.new ≡ drop result.left_made left_replies.old }
    ensures right_rest { drop result.right_made right_replies.new ≡ drop result.right_made right_replies.old }
{
    let mut left = Tap::new(left);
    let mut right = Tap::new(right);
    let left_made = run(&mut left, left_calls, left_replies);
    let right_made = run(&mut right, right_calls, right_replies);
    Both {
        left,
        right,
        left_made,
        right_made,
    }
}
