// The words of a sliced store. Places 0 and 1 are the half bytes of the state, 2 to 17 those of the
// key, highest first. Word 16 * place + value has a bit for each row: whether it accepts that value
// there.
ghost use Rattle.std.specs.Prelude.{◌≡◌, ◌^◌, ◌<◌, ◌≤◌};
ghost use Rattle.slices.specs.Words.{half_of, accepts, with_bit, lowest_bit};

use stores::question::Row;

/// The half byte at a place of a state and a key. A place from 18 on is counted as the last, 17.
pub fn half(state: u8, key: u64, place: usize) -> usize
    ensures is { result ≡ half_of state key place }
    ensures below { result < 16 }
{
    if place < 2 {
        usize::from(state >> (4 * (1 - place))) % 16
    } else {
        (key >> (4 * 17_usize.saturating_sub(place))) as usize % 16
    }
}

/// Whether the row has nothing against a half byte at a place, which is counted as by `half`.
pub fn accepts_at(row: Row, place: usize, value: usize) -> bool
    ensures { result ≡ accepts row place value }
{
    value & half(255, row.mask, place) == half(row.state.number(), row.value, place)
}

// The word in which only the bit of a row is set.
fn bit_of(row: u16) -> u64
    requires { row < 64 }
    ensures { result ≡ 2 ^ row }
{
    1 << row
}

/// The word with the bit of a row set or cleared. A word has 64 bits: a row from 64 on changes nothing.
pub fn with_bit(word: u64, row: u16, on: bool) -> u64
    ensures within { row < 64 → result ≡ with_bit word row on }
    ensures beyond { 64 ≤ row → result ≡ word }
{
    if row >= 64 {
        word
    } else if on {
        word | bit_of(row)
    } else {
        word & !bit_of(row)
    }
}

/// The lowest bit that is set, if it is one of the first `held`.
pub fn lowest_bit(word: u64, held: u16) -> Option<u16>
    ensures { result ≡ lowest_bit word held }
{
    let row = word.trailing_zeros() as u16;
    (row < held).then_some(row)
}
