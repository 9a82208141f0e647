// The store over any table of rows.
ghost use Rattle.std.specs.Prelude.{◌≡◌, ◌^◌, ◌<◌, ◌≤◌};
ghost use Rattle.stores.specs.Meaning.{fresh};
ghost use Rattle.stores.specs.Tabled.{tabled};
ghost use Rattle.std.proofs.Common.{arith};

use crate::fault::StoreFault;
use crate::question::{Question, Row};
use crate::store::Store;
use crate::table::Table;
use std::alloc::AllocError;

/// A store that keeps its rows in a table, and counts them and its questions.
pub struct Tabled<T, const CAPACITY: u16> {
    pub(crate) table: T,
    pub(crate) held: u16,
    questions: u64,
    ghost within: { held ≤ CAPACITY },
    ghost counted: { questions < 2 ^ 64 },
}

impl<T: Copy, const CAPACITY: u16> Copy for Tabled<T, CAPACITY> {}

// By hand: a generic struct with a ghost field derives no `Clone`.
impl<T: Copy, const CAPACITY: u16> Clone for Tabled<T, CAPACITY> {
    ghost is_clone = { λ store copy. copy ≡ store };

    ghost is_infallible = { λ _. Unit {0} };

    fn clone(&self) -> Result<Tabled<T, CAPACITY>, AllocError> {
        Ok(*self)
    }
}

impl<T: Table<CAPACITY>, const CAPACITY: u16> Tabled<T, CAPACITY> {
    /// A store with no rows that was never asked.
    pub fn new() -> Tabled<T, CAPACITY>
        ensures { tabled (T.rows result.table result.held) CAPACITY result.held result.questions ≡ fresh CAPACITY }
    {
        Tabled {
            table: T::default(),
            held: 0,
            questions: 0,
        }
    }
}

impl<T: Table<CAPACITY>, const CAPACITY: u16> Store for Tabled<T, CAPACITY> {
    ghost meaning = { λ s. tabled (T.rows s.table s.held) CAPACITY s.held s.questions };

    ghost bounded = { λ s.
        record {
          rows_fit = omega (arith, T.length_rows s.table s.held s.within);
          capacity_fits = omega arith;
          takes_fit = omega arith;
          questions_fit = s.counted;
        } };

    fn wipe(&mut self) {
        self.held = 0;
    }

    fn append(&mut self, row: &Row) -> Result<(), StoreFault> {
        if self.held >= CAPACITY {
            return Err(StoreFault::Full);
        }
        self.table.put(self.held, *row);
        self.held += 1;
        Ok(())
    }

    fn ask(&mut self, question: &Question) -> Option<u16> {
        self.questions = self.questions.wrapping_add(1);
        self.table.first_fitting(self.held, question)
    }

    fn capacity(&self) -> u16 {
        CAPACITY
    }

    fn held(&self) -> u16 {
        self.held
    }

    fn takes(&self) -> u16 {
        CAPACITY - self.held
    }
}
