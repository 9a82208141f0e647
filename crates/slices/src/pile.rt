// Three stores that are used as one.
ghost use Rattle.std.specs.Prelude.{◌≡◌};
ghost use Rattle.slices.specs.Piled.{piled};
ghost use Rattle.stores.specs.Meaning.{fresh};

use crate::sliced::Sliced;
use stores::listing::Listing;
use stores::pair::Pair;

/// A sliced store, and behind it a listing store and a sliced one: 640 rows.
pub type Pile = Pair<Sliced, Pair<Listing, Sliced>>;

/// A pile of three fresh stores, as fresh as one store of 640 rows.
pub fn fresh_pile() -> Pile
    ensures { piled result ≡ fresh 640 }
{
    Pair::new(Sliced::new(), Pair::new(Listing::new(), Sliced::new()))
}
