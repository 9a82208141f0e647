// What is asked of every sort of pattern, and the two sorts: ternary patterns and ranges.
ghost use Rattle.std.specs.Prelude.{◌≡◌, ◌^◌, ◌<◌, Bool, true, Decides, Option};
ghost use Rattle.patterns.specs.Sorts.{ternary_of, ternary_fits, ternary_covers, span_of, span_fits, span_covers};
ghost use Rattle.patterns.specs.Covering.{ternary_covering, ternary_named, span_covering, span_named};

use crate::row::{RangeRow, TernaryRow};
use crate::span::Span;
use crate::ternary::Ternary;

/// A sort of pattern: which keys fit one, and when one covers another.
pub trait Pattern: Copy {
    /// What is held against a pattern.
    type Key: Copy;

    /// A row that may make a pattern.
    type Plain: Copy;

    // The keys that there are: each key that `fits` takes is one, and each that `sample` answers.
    ghost keys: { Self.Key → Type 0 };

    // The pattern that a plain row makes, or none.
    ghost made: { Self.Plain → Option Self };

    // The key fits the pattern.
    ghost fits: { Self → Self.Key → Bool };

    // The first pattern covers the second.
    ghost covers: { Self → Self → Bool };

    /// The pattern that a plain row makes. A row that makes none is refused by `None`.
    fn make(plain: &Self::Plain) -> Option<Self>
        ensures { result ≡ made plain.now };

    /// Whether the key fits. No call is refused.
    fn fits(&self, key: Self::Key) -> bool
        ensures is { result ≡ fits self.now key }
        ensures known { keys key };

    /// Whether every key that fits the other fits this one. No call is refused.
    fn covers(&self, other: &Self) -> bool
        ensures { result ≡ covers self.now other.now };

    /// A key that fits. No call is refused. Free: which one is left open, as long as it is a key and
    /// fits.
    fn sample(&self) -> Self::Key
        ensures key { keys result }
        ensures fitting { fits self.now result ≡ true };

    // One covers another exactly when every key that fits the other fits it.
    ghost covering: { (p q : Self) → Decides (covers p q) ((k : Self.Key) → keys k → fits q k ≡ true → fits p k ≡ true) };

    // Every pattern has a key that fits.
    ghost named: { (p : Self) → (k : Self.Key) × keys k × (fits p k ≡ true) };
}

impl Pattern for Ternary {
    type Key = u32;

    type Plain = TernaryRow;

    ghost keys = { λ k. k < 2 ^ 32 };

    ghost made = { ternary_of };

    ghost fits = { ternary_fits };

    ghost covers = { ternary_covers };

    ghost covering = { ternary_covering };

    ghost named = { ternary_named };

    fn make(plain: &TernaryRow) -> Option<Ternary> {
        // By a branch and no `then`, which was tried: the type's invariant is shown by the test.
        if plain.value & plain.mask == plain.value {
            Some(Ternary {
                value: plain.value,
                mask: plain.mask,
            })
        } else {
            None
        }
    }

    fn fits(&self, key: u32) -> bool {
        key & self.mask == self.value
    }

    fn covers(&self, other: &Ternary) -> bool {
        self.mask & other.mask == self.mask && other.value & self.mask == self.value
    }

    fn sample(&self) -> u32 {
        self.value
    }
}

impl Pattern for Span {
    type Key = u16;

    type Plain = RangeRow;

    ghost keys = { λ k. k < 2 ^ 16 };

    ghost made = { span_of };

    ghost fits = { span_fits };

    ghost covers = { span_covers };

    ghost covering = { span_covering };

    ghost named = { span_named };

    fn make(plain: &RangeRow) -> Option<Span> {
        // By a branch, as above.
        if plain.low <= plain.high {
            Some(Span {
                low: plain.low,
                high: plain.high,
            })
        } else {
            None
        }
    }

    fn fits(&self, key: u16) -> bool {
        self.low <= key && key <= self.high
    }

    fn covers(&self, other: &Span) -> bool {
        self.low <= other.low && other.high <= self.high
    }

    fn sample(&self) -> u16 {
        self.low
    }
}
