// The bytes of a record: which of them are in their ranges. A byte behind the end reads as 0.
ghost use Rattle.std.specs.Prelude.{◌≡◌, ◌+◌, ◌*◌, ◌%◌, ◌^◌, ◌<◌, ◌≤◌, length, nat_le, IfSome};
ghost use Rattle.graph_reader.specs.Records.{at, at2, at4, fixed_right, counted_right, length_right, lookup_right, ternary_right, range_right, target_right, row_right, right};
ghost use Rattle.std.specs.Option.{option_map};
ghost use Rattle.refusals.specs.Searching.{fault_of};
ghost use Rattle.graph_reader.specs.Files.{first_wrong};
ghost use Rattle.graph_reader.specs.declared.fault.FileFault.TheVariants.{Byte};

use crate::fault::FileFault;
use octets::read::{byte_at, number2, number4};

/// The place of the first byte of a record that is out of its range.
pub fn first_wrong(bytes: &[u8]) -> Option<usize>
    ensures is { result ≡ first_wrong bytes.now }
    ensures within { IfSome result (λ i. i < length bytes.now) }
{
    (0..bytes.len()).find(|i| !byte_right(bytes, *i))
}

/// Whether each byte of a node's record is in its range. Refused by 3, at the first that is not:
/// by the lowest 16 bits of its place, which are all of it in a record of at most 65536 bytes.
/// Public for the crate `graph_writer`, which checks the records that it is about to write.
pub fn check_record(node: u8, bytes: &[u8]) -> Result<(), FileFault>
    ensures is { fault_of result ≡ option_map (λ i. Byte node (i % 2 ^ 16)) (first_wrong bytes.now) }
    ensures brief { length bytes.now ≤ 2 ^ 16 → fault_of result ≡ option_map (Byte node) (first_wrong bytes.now) }
{
    first_wrong(bytes).map_or(Ok(()), |at| {
        Err(FileFault::Byte {
            node,
            at: (at % 65536) as u16,
        })
    })
}

#[tactic(auto, unfolding(crate::specs::Records::right))]
fn byte_right(bytes: &[u8], i: usize) -> bool
    requires { i < 2 ^ 63 }
    ensures { result ≡ right bytes.now i }
{
    match i {
        0..=7 => length_right(bytes, i),
        8..=15 => lookup_right(bytes, i),
        _ => RowAt::new(bytes, (i - 16) / 10).right(((i - 16) % 10) as u8),
    }
}

// Bytes 0 to 7.
fn length_right(bytes: &[u8], i: usize) -> bool
    ensures { result ≡ length_right bytes.now i }
{
    let byte = byte_at(bytes, i);
    match i {
        0 => byte <= 10,
        1 => byte <= 1,
        _ => {
            if byte_at(bytes, 1) == 0 {
                fixed_right(i, byte)
            } else {
                counted_right(i, byte)
            }
        }
    }
}

fn fixed_right(i: usize, byte: u8) -> bool
    ensures { result ≡ fixed_right i byte }
{
    if i == 2 { byte >= 1 } else { byte == 0 }
}

fn counted_right(i: usize, byte: u8) -> bool
    ensures { result ≡ counted_right i byte }
{
    match i {
        2 => byte <= 63,
        4 => byte <= 7,
        5 => 1 <= byte && byte <= 8,
        7 => byte == 0,
        _ => true,
    }
}

// Bytes 8 to 15.
fn lookup_right(bytes: &[u8], i: usize) -> bool
    requires { (8 ≤ i) × (i < 16) }
    ensures { result ≡ lookup_right bytes.now i }
{
    let byte = byte_at(bytes, i);
    let places = byte_at(bytes, 8);
    match i {
        8 => byte <= 4,
        9..=12 => {
            if i - 9 < usize::from(places) {
                byte <= 63
            } else {
                byte == 0
            }
        }
        13 => { if places < 2 { byte == 0 } else { byte <= 1 } }
        14 => 1 <= byte && byte <= 16,
        _ => byte == 0,
    }
}

// A row of a record: the record, and where in it the row begins.
#[derive(Clone, Copy)]
pub(crate) struct RowAt<'a> {
    pub(crate) bytes: &'a [u8],
    pub(crate) begin: usize,
    ghost near: { begin < 2 ^ 63 },
}

impl<'a> RowAt<'a> {
    // Row k of a record.
    pub(crate) fn new(bytes: &'a [u8], k: usize) -> RowAt<'a>
        requires { 16 + 10 * k < 2 ^ 63 }
        ensures bytes { result.bytes ≡ bytes.entry }
        ensures begin { result.begin ≡ 16 + 10 * k }
    {
        RowAt {
            bytes,
            begin: 16 + 10 * k,
        }
    }

    // Whether the row lies behind the record's last byte, so that all its bytes are 0.
    pub(crate) fn is_behind(&self) -> bool
        ensures { result ≡ nat_le (length self.now.bytes.now) self.now.begin }
    {
        self.bytes.len() <= self.begin
    }

    // Whether byte j of the row is in its range.
    fn right(&self, j: u8) -> bool
        ensures { result ≡ row_right self.now.bytes.now self.now.begin j }
    {
        if j >= 8 {
            return self.target_right(j);
        }
        if byte_at(self.bytes, 13) == 0 {
            self.ternary_right(j)
        } else {
            self.range_right(j)
        }
    }

    fn ternary_right(&self, j: u8) -> bool
        ensures { result ≡ ternary_right self.now.bytes.now self.now.begin j }
    {
        let byte = self.byte(j);
        if j % 4 >= byte_at(self.bytes, 8) {
            return byte == 0;
        }
        j >= 4 || byte & self.byte(j + 4) == byte
    }

    fn range_right(&self, j: u8) -> bool
        ensures { result ≡ range_right self.now.bytes.now self.now.begin j }
    {
        if j == 0 {
            return self.number2(0) <= self.number2(2);
        }
        j < 4 || self.byte(j) == 0
    }

    fn target_right(&self, j: u8) -> bool
        ensures { result ≡ target_right self.now.bytes.now self.now.begin j }
    {
        let byte = self.byte(j);
        if j == 8 {
            return byte <= 2;
        }
        self.byte(8) == 0 || byte == 0
    }

    // Byte j of the row, and the numbers from there on.
    pub(crate) fn byte(&self, j: u8) -> u8
        ensures { result ≡ at self.now.bytes.now (self.now.begin + j) }
    {
        byte_at(self.bytes, self.begin + usize::from(j))
    }

    pub(crate) fn number2(&self, j: u8) -> u16
        ensures { result ≡ at2 self.now.bytes.now (self.now.begin + j) }
    {
        number2(self.bytes, self.begin + usize::from(j))
    }

    pub(crate) fn number4(&self, j: u8) -> u32
        ensures { result ≡ at4 self.now.bytes.now (self.now.begin + j) }
    {
        number4(self.bytes, self.begin + usize::from(j))
    }
}
