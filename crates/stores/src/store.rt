// What every store does.
ghost use Rattle.std.specs.Prelude.{◌≡◌, length};
ghost use Rattle.stores.specs.Meaning.{Meaning, Bounded, wiped, admits, appended, answer, asked};

use crate::fault::StoreFault;
use crate::question::{Question, Row};

/// A store of rows, known by its meaning: its rows in order, its capacity, how many rows it still
/// takes, and the questions put so far. No call changes the capacity.
pub trait Store {
    ghost meaning: { Self → Meaning };

    /// Leaves no rows, and takes as many as the capacity again. The questions stay as they were.
    fn wipe(&mut self)
        ensures { meaning self.new ≡ wiped (meaning self.old) };

    /// Puts a row behind the others. Refused by 9, changing nothing, exactly if none is taken.
    fn append(&mut self, row: &Row) -> Result<(), StoreFault>
        ensures answered { result ≡ admits (meaning self.old) }
        ensures after { meaning self.new ≡ appended (meaning self.old) row.now };

    /// The place of the first row that fits, or none. Only the questions grow, by one.
    fn ask(&mut self, question: &Question) -> Option<u16>
        ensures answered { result ≡ answer (meaning self.old).rows question.now }
        ensures after { meaning self.new ≡ asked (meaning self.old) question.now };

    /// How many rows there can be.
    fn capacity(&self) -> u16
        ensures { result ≡ (meaning self.now).capacity };

    /// How many rows there are.
    fn held(&self) -> u16
        ensures { result ≡ length (meaning self.now).rows };

    /// How many more rows are taken.
    fn takes(&self) -> u16
        ensures { result ≡ (meaning self.now).takes };

    ghost bounded: { (s : Self) → Bounded (meaning s) };
}
