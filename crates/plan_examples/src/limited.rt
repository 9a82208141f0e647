// A store of any capacity up to 512 rows, made for examples.
ghost use Rattle.std.specs.Prelude.{◌≡◌, ◌≤◌, min};
ghost use Rattle.stores.specs.Listed.{of_listing};
ghost use Rattle.plan_examples.specs.Limits.{limited};
ghost use Rattle.stores.specs.Meaning.{fresh};
ghost use Rattle.std.proofs.Common.{arith};
ghost use Rattle.plan_examples.specs.LimitsLemmas.{listing_length};

use stores::fault::StoreFault;
use stores::listing::Listing;
use stores::question::{Question, Row};
use stores::store::Store;

/// A listing that takes no more rows than its limit.
#[derive(Clone, Copy)]
pub struct Limited {
    all: Listing,
    limit: u16,
    ghost small: { limit ≤ 512 },
}

impl Limited {
    /// A store of so many rows, with none yet; a limit over 512 counts as 512.
    pub fn new(limit: u16) -> Limited
        ensures { limited (of_listing result.all) result.limit ≡ fresh (min limit 512) }
    {
        let all = Listing::new();
        Limited {
            all,
            limit: limit.min(all.capacity()),
        }
    }
}

impl Store for Limited {
    ghost meaning = { λ s. limited (of_listing s.all) s.limit };

    ghost bounded = { λ s.
        record {
          rows_fit = omega (arith, listing_length s.all);
          capacity_fits = omega arith;
          takes_fit = omega arith;
          questions_fit = s.all.counted;
        } };

    fn wipe(&mut self) {
        self.all.wipe();
    }

    fn append(&mut self, row: &Row) -> Result<(), StoreFault> {
        if self.all.held() >= self.limit {
            return Err(StoreFault::Full);
        }
        self.all.append(row)
    }

    fn ask(&mut self, question: &Question) -> Option<u16> {
        self.all.ask(question)
    }

    fn capacity(&self) -> u16 {
        self.limit
    }

    fn held(&self) -> u16 {
        self.all.held()
    }

    fn takes(&self) -> u16 {
        self.limit.saturating_sub(self.all.held())
    }
}
