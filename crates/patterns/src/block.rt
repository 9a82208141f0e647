// One block of a range that was split.

/// 2^k numbers that begin at a multiple of 2^k, as a ternary row over 16 bits: a key lies in the block
/// if its bits under the mask are the value.
#[derive(Clone, Copy, PartialEq, Eq, Debug)]
pub struct Block {
    pub value: u16,
    pub mask: u16,
}
