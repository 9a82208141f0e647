// Every store answers the same questions alike.
use crate::rows::{question, row, row_of};
use slices::pile::fresh_pile;
use slices::sliced::Sliced;
use std::process::Abort;
use std::test::Fail;
use stores::fill::fill;
use stores::listing::Listing;
use stores::pair::Pair;
use stores::store::Store;

// State and key of a question, and the place of the row that answers it.
const ANSWERS: [(u8, u64, Option<u16>); 10] = [
    (1, 0x0800_0000_0000_0000, Some(0)),
    (1, 0x0800_1234_5678_9abc, Some(0)),
    (1, 0x8100_0000_0000_0001, Some(3)),
    (1, 0x86dd_0000_0000_0000, Some(3)),
    (2, 0x0800_0000_0000_0000, None),
    (17, 0x0800_0000_0000_0000, None),
    (33, 0x0800_0000_0000_0000, None),
    (63, 0xffff_ffff_ffff_ffff, Some(2)),
    (63, 0xffff_ffff_ffff_fffe, Some(4)),
    (63, 0xffff_ffff_ffff_ffef, None),
];

// Puts the table's rows behind `before` others. Row 1 has a value bit outside its mask: it fits nothing.
fn answers_the_table<S: Store>(rt: &impl Abort, store: &mut S, before: u16) -> Result<(), Fail> {
    let rows = [
        row(1, 0x0800_0000_0000_0000, 0xffff_0000_0000_0000)?,
        row(1, 0x8100_0000_0000_0001, 0xffff_0000_0000_0000)?,
        row(63, 0xffff_ffff_ffff_ffff, 0xffff_ffff_ffff_ffff)?,
        row(1, 0, 0)?,
        row(63, 0x10, 0x11)?,
    ];
    fill(store, &rows)?;
    assert_eq!(rt; store.held(), before.wrapping_add(5));
    for (number, key, place) in ANSWERS {
        let expected = place.map(|place| place.wrapping_add(before));
        assert_eq!(rt; store.ask(&question(number, key)?), expected);
    }
    store.wipe();
    assert_eq!(rt; store.held(), 0);
    assert_eq!(rt; store.takes(), store.capacity());
    assert_eq!(rt; store.ask(&question(1, 0)?), None);
    Ok(())
}

#[test]
fn every_store_answers_the_table(rt: HostRuntime) -> Result<(), Fail> {
    answers_the_table(&rt, &mut Listing::new(), 0)?;
    answers_the_table(&rt, &mut Sliced::new(), 0)?;
    answers_the_table(&rt, &mut fresh_pile(), 0)
}

#[test]
fn rows_in_two_parts_answer_the_table(rt: HostRuntime) -> Result<(), Fail> {
    let mut first = Sliced::new();
    fill(&mut first, &[row_of(7)?; 62])?;
    answers_the_table(&rt, &mut Pair::new(first, Listing::new()), 62)
}
