// The split of a range into blocks, each a ternary row over 16 bits.
ghost use Rattle.std.specs.List.{list_any};
ghost use Rattle.std.specs.Prelude.{◌≡◌, ℕ, ◌+◌, ◌^◌, ◌<◌, ◌≤◌, ◌++◌, length, drop};
ghost use Rattle.patterns.specs.Sorts.{span_fits};
ghost use Rattle.patterns.specs.Splitting.{SplitsInto, block_at, block_fits, block_ok, split_of, top_block};

use crate::block::Block;
use crate::span::Span;

/// How many numbers a block of the order k has.
fn size(k: u32) -> u32
    requires { k ≤ 16 }
    ensures { result ≡ 2 ^ k }
{
    1 << k
}

// Two ends and no `Span`: a block is looked for at any two numbers, and only `step` needs them in order.
/// Whether 2^k numbers from low begin at a multiple of 2^k and end by high.
fn block_ok(low: u16, high: u16, k: u32) -> bool
    requires { k ≤ 16 }
    ensures { result ≡ block_ok low high k }
{
    let (low, high) = (u32::from(low), u32::from(high));
    let n = size(k);
    low % n == 0 && low + n <= high + 1
}

/// The greatest k for which there is such a block.
fn top_block(low: u16, high: u16) -> u32
    ensures { result ≡ top_block low high }
{
    (1..17).rev().find(|k| block_ok(low, high, *k)).unwrap_or(0)
}

/// How many numbers the first block of low to high has.
fn step(low: u16, high: u16) -> u32
    requires { low ≤ high }
    ensures is { result ≡ 2 ^ top_block low high }
    ensures some { 0 < result }
    ensures within { low + result ≤ high + 1 }
{
    size(top_block(low, high))
}

/// The block of so many numbers from low.
fn block_at(low: u16, count: u32) -> Block
    requires { (0 < count) × (count ≤ 2 ^ 16) }
    ensures { result ≡ block_at low count }
{
    Block {
        value: low,
        mask: (65536 - count) as u16,
    }
}

/// Writes the blocks of the range from the front of `out`, and answers how many there are. No range is
/// refused: thirty blocks are enough for each. From the low end it takes the largest block of 2^k
/// numbers that begins at a multiple of 2^k and ends by high, then goes on with the rest.
pub fn split(span: &Span, out: &mut [Block; 30]) -> usize
    ensures count { result ≡ length (split_of span.now.low span.now.high) }
    ensures written { out.new ≡ split_of span.now.low span.now.high ++ drop result out.old }
    ensures room { length out.new ≡ 30 }
    ensures few { result ≤ 30 }
    ensures rule { SplitsInto span.now.low span.now.high (split_of span.now.low span.now.high) }
    ensures same { (k : ℕ) → k < 2 ^ 16 → list_any (λ b. block_fits b k) (split_of span.now.low span.now.high) ≡ span_fits span.now k }
{
    let high = u32::from(span.high);
    let mut low = u32::from(span.low);
    // The blocks are counted by hand, in an array: the loop ends with the range and not with the array,
    // and a device has no heap.
    let mut n = 0;
    while low <= high {
        let from = low as u16;
        let count = step(from, span.high);
        out[n] = block_at(from, count);
        low += count;
        n += 1;
    }
    n
}
