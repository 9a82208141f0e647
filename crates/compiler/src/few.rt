// A list in fixed memory: a device has no heap. It is copied with the program that it stands in, as the
// kit's `arrayvec` is not.
ghost use Rattle.std.specs.Prelude.{◌≡◌, ◌≤◌};

use std::alloc::AllocError;

/// A list of at most `N` items, in an array with their count.
pub struct Few<T, const N: usize> {
    pub(crate) items: [T; N],
    pub(crate) count: usize,
    ghost within: { count ≤ N },
}

impl<T: Copy, const N: usize> Copy for Few<T, N> {}

// By hand: a generic struct with a ghost field derives no `Clone`.
impl<T: Copy, const N: usize> Clone for Few<T, N> {
    ghost is_clone = { λ list copy. copy ≡ list };

    ghost is_infallible = { λ _. Unit {0} };

    fn clone(&self) -> Result<Few<T, N>, AllocError> {
        Ok(*self)
    }
}
