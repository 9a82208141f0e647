// The stores side by side: the same rows, the same questions.
use crate::failure::Failure;
use slices::pile::fresh_pile;
use slices::sliced::Sliced;
use std::alloc::Global;
use std::io;
use stores::fill::fill;
use stores::listing::Listing;
use stores::question::{Question, Row};
use stores::state::State;
use stores::store::Store;

// State, value and mask of each row. Row 3 has a value bit outside its mask, so it fits nothing;
// rows 4 and 5 fit every question of their states.
const ROWS: [(u8, u64, u64); 6] = [
    (0, 0x8100_0000_0000_0000, 0xFFFF_0000_0000_0000),
    (0, 0x0800_0000_0000_0000, 0xFFFF_0000_0000_0000),
    (2, 0x0000_0600_0000_0000, 0x1FFF_FF00_0000_0000),
    (2, 0x0000_1100_0000_0001, 0x1FFF_FF00_0000_0000),
    (0, 0, 0),
    (63, 0, 0),
];

// State and key of each question, and what its key stands for.
const QUESTIONS: [(u8, u64, &str); 7] = [
    (0, 0x8100_0000_0000_0000, "type of a VLAN tag"),
    (0, 0x0800_0000_0000_0000, "type of IPv4"),
    (0, 0x86DD_0000_0000_0000, "any other type"),
    (2, 0x4000_0600_0000_0000, "TCP, whole packet"),
    (2, 0x0001_0600_0000_0000, "TCP, later fragment"),
    (2, 0x0000_1100_0000_0001, "UDP, but row 3 fits nothing"),
    (63, 0xFFFF_FFFF_FFFF_FFFF, "any key of state 63"),
];

// What one store said: filled, asked, and filled to the brim.
#[derive(Clone, Copy)]
struct Column {
    capacity: u16,
    held: u16,
    takes: u16,
    answers: [Option<u16>; 7],
    full: u16,
}

/// Fills a listing store, a sliced store and a pile of three with the same rows, puts the same
/// questions to each, then fills each to the brim, and prints what they say side by side.
pub fn print_stores<'a>(rt: &(impl Print + AllocGlobal)) -> Result<(), Failure<'a>> {
    let rows = rows(rt.alloc())?;
    let rows = rows.as_slice();
    let listing = tried(&mut Listing::new(), rows)?;
    let sliced = tried(&mut Sliced::new(), rows)?;
    let pile = tried(&mut fresh_pile(), rows)?;
    print_rows(rt)?;
    Ok(print_columns(rt, [listing, sliced, pile])?)
}

fn rows<'a>(heap: Global) -> Result<Vec<Row>, Failure<'a>> {
    let mut rows = Vec::new(heap);
    for (state, value, mask) in ROWS {
        if let Some(state) = State::new(state) {
            rows.push(Row { state, value, mask })?;
        }
    }
    Ok(rows)
}

fn tried<'a, S: Store>(store: &mut S, rows: &[Row]) -> Result<Column, Failure<'a>> {
    fill(store, rows)?;
    let held = store.held();
    let takes = store.takes();
    let answers = QUESTIONS.map(|(state, key, _)| ask(store, state, key));
    fill_up(store, rows);
    Ok(Column {
        capacity: store.capacity(),
        held,
        takes,
        answers,
        full: store.held(),
    })
}

fn ask<S: Store>(store: &mut S, state: u8, key: u64) -> Option<u16> {
    let state = State::new(state)?;
    store.ask(&Question { state, key })
}

// Appends the first row until the store refuses it.
fn fill_up<S: Store>(store: &mut S, rows: &[Row]) {
    let Some(row) = rows.first() else {
        return;
    };
    while store.append(row).is_ok() {}
}

fn print_rows(rt: &impl Print) -> io::Result<()> {
    println!(rt; "row  state  value               mask")?;
    for (i, (state, value, mask)) in ROWS.iter().enumerate() {
        println!(rt; "{i:>3}  {state:>5}  0x{value:016X}  0x{mask:016X}")?;
    }
    Ok(())
}

fn print_columns(rt: &impl Print, columns: [Column; 3]) -> io::Result<()> {
    println!(rt; "             listing   sliced     pile")?;
    print_numbers(rt, "capacity", columns.map(|column| column.capacity))?;
    print_numbers(rt, "held", columns.map(|column| column.held))?;
    print_numbers(rt, "takes", columns.map(|column| column.takes))?;
    let [listing, sliced, pile] = columns;
    let asked = QUESTIONS
        .iter()
        .zip(listing.answers.iter())
        .zip(sliced.answers.iter())
        .zip(pile.answers.iter());
    for (i, ((((state, key, meaning), listing), sliced), pile)) in asked.enumerate() {
        print!(rt; "question {i}  ")?;
        print_answer(rt, *listing)?;
        print_answer(rt, *sliced)?;
        print_answer(rt, *pile)?;
        println!(rt; "  state {state:>2}, 0x{key:016X}: {meaning}")?;
    }
    let asked = QUESTIONS.len() as u16;
    print_numbers(rt, "asked", [asked; 3])?;
    print_numbers(rt, "full with", columns.map(|column| column.full))
}

fn print_numbers(rt: &impl Print, name: &str, numbers: [u16; 3]) -> io::Result<()> {
    let [a, b, c] = numbers;
    println!(rt; "{name:<11} {a:>8} {b:>8} {c:>8}")
}

fn print_answer(rt: &impl Print, answer: Option<u16>) -> io::Result<()> {
    match answer {
        Some(place) => print!(rt; "{place:>8} "),
        None => print!(rt; "{:>8} ", "none"),
    }
}
