// A header at an offset of a packet, from its length rule and its lookup places.
ghost use Rattle.std.specs.Prelude.{◌≡◌, ◌+◌, ◌/◌, ◌^◌, ◌≤◌, ◌++◌, map, length, nat_lt, slice_index, IfOk};
ghost use Rattle.refusals.specs.Searching.{fault_of};
ghost use Rattle.walks.specs.Bytes.{byte_at};
ghost use Rattle.walks.specs.Walk.{measured, length_places};
ghost use Rattle.walks.specs.Turning.{held, header_refusal};
ghost use Rattle.walker.specs.Headers.{size_refusal, key_of};

use graphs::graph::Length;
use octets::read::byte_at;
use std::array;
use walks::outcome::Ending;

/// A header that begins at an offset of a packet. Its places are counted from there on.
#[derive(Clone, Copy)]
pub struct HeaderAt<'a> {
    pub packet: &'a [u8],
    pub at: u32,
}

impl<'a> HeaderAt<'a> {
    /// The byte at a place of the header. A place past the packet's end is not refused: its byte
    /// is 0.
    pub fn byte(&self, place: u16) -> u8
        ensures { result ≡ byte_at self.now.packet.now (self.now.at + place) }
    {
        byte_at(self.packet, self.at as usize + usize::from(place))
    }

    /// The header's length by a length rule. Nothing is refused: a byte past the packet's end
    /// counts as 0.
    pub fn measure(&self, length: Length) -> u32
        ensures is { result ≡ measured length self.now.packet.now self.now.at }
        ensures small { result ≤ 65280 }
    {
        match length {
            Length::Fixed(size) => u32::from(size),
            Length::Counted {
                place,
                mask,
                shift,
                unit,
                base,
            } => {
                let count = shifted(self.byte(u16::from(place)) & mask, shift);
                u32::from(base) + u32::from(unit) * u32::from(count)
            }
        }
    }

    /// Whether each of the places lies in the packet.
    pub fn holds(&self, places: &[u8]) -> bool
        ensures { result ≡ held self.now.packet.now self.now.at places.now }
    {
        places.iter().all(|place| self.has(*place))
    }

    // Whether a place lies in the packet.
    fn has(&self, place: u8) -> bool
        ensures { result ≡ nat_lt (self.now.at + place) (length self.now.packet.now) }
    {
        self.at as usize + usize::from(place) < self.packet.len()
    }

    // Whether all bytes that the header is read by lie in the packet.
    fn holds_all(&self, length: Length, places: &[u8]) -> bool
        ensures { result ≡ held self.now.packet.now self.now.at (places.now ++ length_places length) }
    {
        self.holds(places) && self.holds_length(length)
    }

    // Whether the byte that a length rule reads, if it reads one, lies in the packet.
    fn holds_length(&self, length: Length) -> bool
        ensures { result ≡ held self.now.packet.now self.now.at (length_places length) }
    {
        match length {
            Length::Fixed(_) => true,
            Length::Counted { place, .. } => self.has(place),
        }
    }

    /// The header's length, by its kind's minimum, its length rule and its lookup places. Refused,
    /// in this order, as cut if a byte that is read lies outside the packet, as short if the header
    /// is under the minimum, as cut if it overruns the packet.
    pub fn check(&self, minimum: u8, length: Length, places: &[u8]) -> Result<u32, Ending>
        ensures refused { fault_of result ≡ header_refusal self.now.packet.now self.now.at minimum length places.now }
        ensures size { IfOk result (λ size. size ≡ measured length self.now.packet.now self.now.at) }
    {
        if !self.holds_all(length, places) {
            return Err(Ending::Cut);
        }
        self.check_size(minimum, length)
    }

    /// The header's length, by its kind's minimum and its length rule. Refused as short if the header
    /// is under the minimum, then as cut if it overruns the packet. Nothing is said of the bytes that
    /// it is read by.
    pub fn check_size(&self, minimum: u8, length: Length) -> Result<u32, Ending>
        ensures refused { fault_of result ≡ size_refusal self.now.packet.now self.now.at minimum length }
        ensures size { IfOk result (λ size. size ≡ measured length self.now.packet.now self.now.at) }
    {
        let size = self.measure(length);
        if size < u32::from(minimum) {
            return Err(Ending::Short);
        }
        if self.at as usize + size as usize > self.packet.len() {
            return Err(Ending::Cut);
        }
        Ok(size)
    }

    /// The header's key: its lookup bytes, the first topmost, as a number of four bytes. Nothing is
    /// refused: a byte that is missing is 0, and only the first four places count.
    pub fn key(&self, places: &[u8]) -> u32
        ensures { result ≡ key_of self.now.packet.now self.now.at places.now }
    {
        u32::from_be_bytes(array::from_fn(|i| self.looked_up(places, i)))
    }

    // The lookup byte of a number, 0 if there is no such place.
    fn looked_up(&self, places: &[u8], i: usize) -> u8
        ensures { result ≡ slice_index (map (λ place. byte_at self.now.packet.now (self.now.at + place)) places.now) i }
    {
        // Tried: of a closure over the header neither `map` nor `map_or` promises what it answers, so
        // the two cases stand here.
        match places.get(i) {
            Some(place) => self.byte(u16::from(*place)),
            None => 0,
        }
    }
}

// A byte shifted right, by 8 bits and more too.
fn shifted(byte: u8, shift: u8) -> u8
    ensures { result ≡ byte / 2 ^ shift }
{
    byte.checked_shr(u32::from(shift)).unwrap_or(0)
}
