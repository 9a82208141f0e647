// What stands beside a row of the store.
use patterns::row::Target;

/// What a fitting row says: how many headers are passed beyond the first, so that a row passes
/// `beyond + 1` in all, and the target behind the last of them. `None` says that no row fits there.
#[derive(Clone, Copy, PartialEq, Eq, Debug)]
pub struct Action {
    pub beyond: u8,
    pub target: Option<Target>,
}
