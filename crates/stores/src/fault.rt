// What a store refuses.
ghost use Rattle.std.specs.Prelude.{◌≡◌};
ghost use Rattle.stores.specs.Faults.{of_store};

use refusals::refusal::{Layer, Refusal};

/// Why a store says no: it takes no more rows.
#[derive(Clone, Copy, PartialEq, Eq, Debug)]
pub enum StoreFault {
    Full,
}

/// The fault's number, layer and place.
impl From<StoreFault> for Refusal {
    ghost from_gives = { λ fault refusal. refusal ≡ of_store fault };

    fn from(fault: StoreFault) -> Refusal {
        match fault {
            StoreFault::Full => Refusal::new(9, Layer::Store),
        }
    }
}
