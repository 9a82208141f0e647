// A key, as the lookup bytes come.
ghost use Rattle.std.specs.Prelude.{ℕ, List, [], ◌∷◌, ◌++◌};
ghost use Rattle.readers.specs.Keys.{Spells};

/// The number that the bytes so far spell, the first of eight topmost, and what one in the next
/// byte counts: nothing behind the eighth. A number and no array, since a processor waits where
/// bytes that it has just stored one by one are read as one number.
#[derive(Clone, Copy)]
pub(crate) struct Key {
    pub(crate) number: u64,
    unit: u64,
}

impl Key {
    /// The key of no bytes.
    pub(crate) fn new() -> Key
        ensures { Spells result [] }
    {
        Key {
            number: 0,
            unit: 1 << 56,
        }
    }

    /// Puts one more byte behind the others. It takes no branch: a byte behind the eighth counts
    /// nothing.
    pub(crate) fn push(&mut self, byte: u8)
        requires { (bytes : List ℕ) × Spells self.old bytes }
        ensures { (bytes : List ℕ) → Spells self.old bytes → Spells self.new (bytes ++ byte ∷ []) }
    {
        self.number += u64::from(byte) * self.unit;
        self.unit /= 256;
    }
}
