// Tables of rows: what a store keeps its rows in.
ghost use Rattle.std.specs.Prelude.{◌≡◌, ℕ, ◌+◌, ◌<◌, ◌≤◌, Bool, List, [], ◌∷◌, ◌++◌, length, None};
ghost use Rattle.stores.specs.Fits.{fits};
ghost use Rattle.stores.specs.Meaning.{answer};
ghost use Rattle.stores.specs.declared.question.Question.{Question};

use crate::question::{Question, Row};

/// A table of places for rows, in a device's fixed memory. How many of its first places are held is
/// told by the store that keeps it.
pub trait Table<const CAPACITY: u16>: Copy + Default {
    // The rows in the first so many places, each as the questions it fits.
    ghost rows: { Self → ℕ → List (Question → Bool) };

    /// Puts a row behind the first `held`. Where no place is left behind them, nothing changes.
    fn put(&mut self, held: u16, row: Row)
        ensures put { held < CAPACITY → rows self.new (held + 1) ≡ rows self.old held ++ fits row ∷ [] }
        ensures full { CAPACITY ≤ held → self.new ≡ self.old };

    /// The place of the first of `held` rows that fits. None where there are fewer places.
    fn first_fitting(&self, held: u16, question: &Question) -> Option<u16>
        ensures found { held ≤ CAPACITY → result ≡ answer (rows self.now held) question.now }
        ensures beyond { CAPACITY < held → result ≡ None };

    // Each place holds a row.
    ghost length_rows: { (t : Self) (held : ℕ) → held ≤ CAPACITY → length (rows t held) ≡ held };
}
