// What is laid out in an area, byte by byte.
ghost use Rattle.std.specs.Prelude.{◌≡◌, ◌+◌, ◌*◌, ◌≤◌, length, take};
ghost use Rattle.octets.specs.Writing.{written};
ghost use Rattle.chost.specs.Area.{room, head, mark_bytes, laid, with_front};

use headers::mark::Mark;
use readers::read::Reading;

// How many marks an area of so many bytes has room for behind its first 6, and 32 at most.
pub(crate) fn room(size: usize) -> usize
    ensures { result ≡ room size }
{
    (size.saturating_sub(6) / 6).min(32)
}

// The six bytes before the marks.
fn head(reading: &Reading) -> [u8; 6]
    requires { reading.now.marks ≤ 32 }
    ensures { result ≡ head reading.now }
{
    let [high, low] = reading.outcome.offset.to_be_bytes();
    let marks = reading.marks as u8;
    [marks, reading.questions, reading.outcome.node, 0, high, low]
}

// The six bytes of a mark.
fn mark_bytes(mark: Mark) -> [u8; 6]
    ensures { result ≡ mark_bytes mark }
{
    let [high, low] = mark.offset.to_be_bytes();
    let [upper, lower] = mark.length.to_be_bytes();
    [mark.node, mark.kind, high, low, upper, lower]
}

// Writes six bytes to an area, from a place on.
fn put(area: &mut [u8], at: usize, bytes: &[u8; 6])
    requires { at + 6 ≤ length area.old }
    ensures { area.new ≡ written area.old at bytes.now }
{
    area[at..at + 6].copy_from_slice(bytes);
}

// Lays out a reading, whose marks stand at the front of `marks`, at the front of an area; the bytes
// behind it stay.
pub(crate) fn lay_out(reading: &Reading, marks: &[Mark], area: &mut [u8])
    requires few { reading.now.marks ≤ 32 }
    requires there { reading.now.marks ≤ length marks.now }
    requires room { 198 ≤ length area.old }
    ensures { area.new ≡ with_front (laid reading.now marks.now) area.old }
{
    put(area, 0, &head(reading));
    for (place, mark) in marks[..reading.marks].iter().enumerate() {
        put(area, 6 + 6 * place, &mark_bytes(*mark));
    }
}
