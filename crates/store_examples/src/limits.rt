// What stores hold and take, up to the last row.
use crate::rows::{question_of, row_of};
use refusals::refusal::{Layer, Refusal};
use slices::pile::fresh_pile;
use slices::sliced::Sliced;
use std::process::Abort;
use std::test::Fail;
use stores::fault::StoreFault;
use stores::listing::Listing;
use stores::pair::Pair;
use stores::store::Store;

// A fresh store takes its capacity, refuses one row more, and finds each row at its place.
fn fills_to_the_brim<S: Store>(rt: &impl Abort, store: &mut S, capacity: u16) -> Result<(), Fail> {
    assert_eq!(rt; store.capacity(), capacity);
    for key in 0..capacity {
        assert_eq!(rt; store.takes(), capacity - key);
        assert_eq!(rt; store.append(&row_of(key)?), Ok(()));
    }
    assert_eq!(rt; store.append(&row_of(capacity)?), Err(StoreFault::Full));
    assert_eq!(rt; store.held(), capacity);
    assert_eq!(rt; store.takes(), 0);
    for key in 0..capacity {
        assert_eq!(rt; store.ask(&question_of(key)?), Some(key));
    }
    assert_eq!(rt; store.ask(&question_of(capacity)?), None);
    Ok(())
}

#[test]
fn the_65th_row_is_refused_by_a_sliced_store(rt: HostRuntime) -> Result<(), Fail> {
    fills_to_the_brim(&rt, &mut Sliced::new(), 64)
}

#[test]
fn the_513th_row_is_refused_by_a_listing(rt: HostRuntime) -> Result<(), Fail> {
    fills_to_the_brim(&rt, &mut Listing::new(), 512)
}

#[test]
fn a_pile_of_three_takes_what_all_three_take(rt: HostRuntime) -> Result<(), Fail> {
    fills_to_the_brim(&rt, &mut fresh_pile(), 640)
}

#[test]
fn a_pair_keeps_the_rows_of_its_parts(rt: HostRuntime) -> Result<(), Fail> {
    let mut first = Listing::new();
    first.append(&row_of(0)?)?;
    first.append(&row_of(1)?)?;
    let mut second = Sliced::new();
    second.append(&row_of(2)?)?;
    assert_eq!(rt; second.ask(&question_of(2)?), Some(0));

    let mut pair = Pair::new(first, second);
    assert_eq!(rt; pair.capacity(), 576);
    assert_eq!(rt; pair.held(), 3);
    assert_eq!(rt; pair.takes(), 63, "the second is not empty");
    pair.append(&row_of(3)?)?;
    for key in 0..4 {
        assert_eq!(rt; pair.ask(&question_of(key)?), Some(key));
    }
    pair.wipe();
    assert_eq!(rt; pair.takes(), 576);
    Ok(())
}

#[test]
fn a_full_store_refuses_by_9(rt: HostRuntime) {
    assert_eq!(rt;
        Refusal::from(StoreFault::Full),
        Refusal::new(9, Layer::Store)
    );
}
