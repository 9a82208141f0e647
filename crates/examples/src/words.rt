// Refusals in words: those that no sample of the program is refused by, and a number that is no state's.
use refusals::refusal::{Layer, Refusal};
use std::alloc::AllocError;
use stores::state::State;

// Number, layer and first place, and the words.
const WORDS: [(u8, Layer, u16, &str); 6] = [
    (
        9,
        Layer::Store,
        0,
        "number 9, layer store: the store takes no more rows",
    ),
    (
        9,
        Layer::Store,
        65535,
        "number 9, layer store, 65535 rows or more: they are more than 512, or than the store can have",
    ),
    (
        11,
        Layer::Read,
        0,
        "number 11, layer read: there is room for fewer than 32 marks",
    ),
    (
        11,
        Layer::Writing,
        0,
        "number 11, layer writing: the area is shorter than the longest graph file, 5762 bytes",
    ),
    (
        17,
        Layer::Field,
        0,
        "number 17, layer field: the mark's kind is unknown, or the part lies outside the packet",
    ),
    (
        18,
        Layer::Walk,
        0,
        "number 18, layer walk: the number is not in use",
    ),
];

#[test]
fn refusals_are_told_in_words(rt: HostRuntime) -> Result<(), AllocError> {
    for (number, layer, first, words) in WORDS {
        let refusal = Refusal::at(number, layer, first, 0);
        assert_eq!(rt; refusal.to_string(rt.alloc())?.as_str(), words);
    }
    Ok(())
}

#[test]
fn no_state_is_told_in_words(rt: HostRuntime) -> Result<(), AllocError> {
    let told = State::try_from(64).err();
    assert!(rt; told.is_some());
    if let Some(told) = told {
        assert_eq!(rt;
            told.to_string(rt.alloc())?.as_str(),
            "64 is no state: a state is below 64"
        );
    }
    Ok(())
}
