// Filling a listing, a sliced store and a pile of three, each with the meaning after it.
ghost use Rattle.std.specs.Prelude.{◌≡◌};
ghost use Rattle.stores.specs.Listed.{of_listing};
ghost use Rattle.slices.specs.Piled.{of_sliced, piled};
ghost use Rattle.stores.specs.Meaning.{appended_each};
ghost use Rattle.stores.specs.Filled.{all_taken};

use crate::rows::row_of;
use slices::pile::{Pile, fresh_pile};
use slices::sliced::Sliced;
use std::test::Fail;
use stores::fault::StoreFault;
use stores::fill::fill;
use stores::listing::Listing;
use stores::question::Row;
use stores::store::Store;

// One `fill` fills each of the three. It says what it does by the trait's meaning, these say it in
// the words of each store.
fn fill_listing(store: &mut Listing, rows: &[Row]) -> Result<(), StoreFault>
    ensures answered { result ≡ all_taken (of_listing store.old) rows.now }
    ensures after { of_listing store.new ≡ appended_each (of_listing store.old) rows.now }
{
    fill(store, rows)
}

fn fill_sliced(store: &mut Sliced, rows: &[Row]) -> Result<(), StoreFault>
    ensures answered { result ≡ all_taken (of_sliced store.old) rows.now }
    ensures after { of_sliced store.new ≡ appended_each (of_sliced store.old) rows.now }
{
    fill(store, rows)
}

fn fill_pile(store: &mut Pile, rows: &[Row]) -> Result<(), StoreFault>
    ensures answered { result ≡ all_taken (piled store.old) rows.now }
    ensures after { piled store.new ≡ appended_each (piled store.old) rows.now }
{
    fill(store, rows)
}

#[test]
fn sixty_five_rows_fill_a_sliced_store_and_no_other(rt: HostRuntime) -> Result<(), Fail> {
    let rows = [row_of(7)?; 65];
    let mut listing = Listing::new();
    assert_eq!(rt; fill_listing(&mut listing, &rows), Ok(()));
    assert_eq!(rt; listing.held(), 65);
    let mut sliced = Sliced::new();
    assert_eq!(rt; fill_sliced(&mut sliced, &rows), Err(StoreFault::Full));
    assert_eq!(rt; sliced.held(), 64);
    let mut pile = fresh_pile();
    assert_eq!(rt; fill_pile(&mut pile, &rows), Ok(()));
    assert_eq!(rt; pile.held(), 65);
    Ok(())
}
