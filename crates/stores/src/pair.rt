// Two stores, one behind the other.
ghost use Rattle.std.specs.Prelude.{◌≡◌, ◌^◌, ◌<◌};
ghost use Rattle.stores.specs.Paired.{paired, behind, cut};
ghost use Rattle.stores.specs.Pairs.{paired_bounded};

use crate::fault::StoreFault;
use crate::question::{Question, Row};
use crate::store::Store;

/// Two stores, the rows of the second behind those of the first: a store again. It counts its own
/// questions, whatever its parts were asked before.
#[derive(Drop)]
pub struct Pair<A, B> {
    first: A,
    second: B,
    questions: u64,
    ghost counted: { questions < 2 ^ 64 },
}

impl<A: Store, B: Store> Pair<A, B> {
    /// The pair of two stores with the rows that they hold, itself never asked.
    pub fn new(first: A, second: B) -> Pair<A, B>
        ensures { paired (A.Store.meaning result.first) (B.Store.meaning result.second) result.questions
            ≡ paired (A.Store.meaning first) (B.Store.meaning second) 0 }
    {
        Pair {
            first,
            second,
            questions: 0,
        }
    }
}

// The place among the rows of both of a row of the second, where the first holds `held`.
fn moved(held: u16, place: Option<u16>) -> Option<u16>
    ensures { result ≡ cut 65535 (behind held place) }
{
    place
        .and_then(|place| held.checked_add(place))
        .filter(|place| *place < u16::MAX)
}

impl<A: Store, B: Store> Store for Pair<A, B> {
    ghost meaning = { λ s. paired (A.Store.meaning s.first) (B.Store.meaning s.second) s.questions };

    ghost bounded = { λ s.
        paired_bounded (A.Store.meaning s.first) (B.Store.meaning s.second) s.questions s.counted };

    fn wipe(&mut self) {
        self.first.wipe();
        self.second.wipe();
    }

    fn append(&mut self, row: &Row) -> Result<(), StoreFault> {
        if self.takes() == 0 {
            return Err(StoreFault::Full);
        }
        if self.second.held() == 0 && self.first.takes() > 0 {
            self.first.append(row)
        } else {
            self.second.append(row)
        }
    }

    fn ask(&mut self, question: &Question) -> Option<u16> {
        self.questions = self.questions.wrapping_add(1);
        // Tried: `or_else` does not tell that the second is left alone where the first answers.
        match self.first.ask(question) {
            Some(place) => Some(place),
            None => moved(self.first.held(), self.second.ask(question)),
        }
    }

    fn capacity(&self) -> u16 {
        self.first.capacity().saturating_add(self.second.capacity())
    }

    fn held(&self) -> u16 {
        self.first.held().saturating_add(self.second.held())
    }

    fn takes(&self) -> u16 {
        let both = if self.second.held() == 0 {
            self.first.takes().saturating_add(self.second.takes())
        } else {
            self.second.takes()
        };
        both.min(u16::MAX - self.held())
    }
}
