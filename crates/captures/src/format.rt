// The header of a capture file.
ghost use Rattle.std.specs.Option.{option_map};
ghost use Rattle.std.specs.Prelude.{◌≡◌, is_some, Decides, MatchResult};
ghost use Rattle.captures.specs.Numbers.{number_at};
ghost use Rattle.captures.specs.Formats.{format_of, resolution_of, format_in, opened, Begins, Opens, Refused};

use crate::bytes::number_at;
use crate::fault::CaptureFault;

/// How many bytes the header of a capture file has: its first record begins behind it.
pub const HEADER: usize = 24;

/// Which byte of a number comes first: the highest or the lowest.
#[derive(Clone, Copy, PartialEq, Eq, Debug)]
pub enum ByteOrder {
    Big,
    Little,
}

/// What the fraction of a second counts: millionths or billionths.
#[derive(Clone, Copy, PartialEq, Eq, Debug)]
pub enum Resolution {
    Micro,
    Nano,
}

/// How the numbers of a capture file are to be read.
#[derive(Clone, Copy, PartialEq, Eq, Debug)]
pub struct Format {
    pub order: ByteOrder,
    pub resolution: Resolution,
}

/// The format of a capture file, by its header. Refused if the file has fewer than 24 bytes or no magic
/// number, or else if its link type is not Ethernet.
pub fn open(file: &[u8]) -> Result<Format, CaptureFault>
    ensures is { result ≡ opened file.now }
    ensures says { MatchResult result (Opens file.now) (Refused file.now) }
{
    let format = format_in(file).ok_or(CaptureFault::NotCapture)?;
    if file.len() < HEADER {
        return Err(CaptureFault::NotCapture);
    }
    let link = (number_at(file, format.order, 20) % 65536) as u16;
    if link != 1 {
        return Err(CaptureFault::NotEthernet { link });
    }
    Ok(format)
}

/// Whether a file begins with one of the four magic spellings, so that it is a capture and not a single
/// packet.
pub fn is_capture(file: &[u8]) -> bool
    ensures is { result ≡ is_some (format_in file.now) }
    ensures begins { Decides result ((m : Format) × Begins file.now m) }
{
    format_in(file).is_some()
}

// The format that the magic number names, in either order.
fn format_in(file: &[u8]) -> Option<Format>
    ensures { result ≡ format_in file.now }
{
    format_by(file, ByteOrder::Big).or_else(|| format_by(file, ByteOrder::Little))
}

// The format that the magic number names, read in one order.
fn format_by(file: &[u8], order: ByteOrder) -> Option<Format>
    ensures { result ≡ option_map (format_of order) (resolution_of (number_at order file.now 0)) }
{
    resolution_of(number_at(file, order, 0)).map(|resolution| Format { order, resolution })
}

// The resolution that a magic number names.
fn resolution_of(number: u32) -> Option<Resolution>
    ensures { result ≡ resolution_of number }
{
    match number {
        0xA1B2C3D4 => Some(Resolution::Micro),
        0xA1B23C4D => Some(Resolution::Nano),
        _ => None,
    }
}
