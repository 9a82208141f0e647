// The records of a capture file.
ghost use Rattle.std.specs.Prelude.{◌≡◌, length, Some};
ghost use Rattle.captures.specs.Records.{record_at, records_at, Steps, Gives, GivesNext, records_left};

use crate::bytes::number_at;
use crate::fault::CaptureFault;
use crate::format::Format;

/// What a record says, in numbers: when its packet came, how long it was, and where in the file it
/// lies. The fraction counts millionths or billionths of a second, as the file's format says. The
/// packet begins at `begin` and has `length` bytes here; it had `original`. The next record begins at
/// `next`.
#[derive(Clone, Copy, PartialEq, Eq, Debug)]
pub struct Entry {
    pub seconds: u32,
    pub fraction: u32,
    pub original: u32,
    pub begin: usize,
    pub length: usize,
    pub next: usize,
}

/// A record with its packet, which is a part of the file itself.
#[derive(Clone, Copy)]
pub struct Record<'a> {
    pub entry: Entry,
    pub packet: &'a [u8],
}

/// The records of a file one after the other, up to its end: each as `next` gives it. Where one is cut
/// its fault comes, once, and then no more.
#[derive(Clone, Drop)]
pub struct Records<'a> {
    file: &'a [u8],
    format: Format,
    // Where the next record begins; `None` behind a fault.
    offset: Option<usize>,
}

impl<'a> Records<'a> {
    /// The records from an offset on.
    pub fn new(file: &'a [u8], format: Format, from: usize) -> Records<'a>
        ensures { result ≡ records_at format file.entry (Some from) }
    {
        Records {
            file,
            format,
            offset: Some(from),
        }
    }
}

impl<'a> Iterator for Records<'a> {
    type Item = Result<Record<'a>, CaptureFault>;

    ghost next_gives = { GivesNext };

    ghost remaining = { records_left };

    fn next(&mut self) -> Option<Result<Record<'a>, CaptureFault>> {
        match next(self.file, self.format, self.offset?) {
            Ok(Some(record)) => {
                self.offset = Some(record.entry.next);
                Some(Ok(record))
            }
            Ok(None) => None,
            Err(fault) => {
                self.offset = None;
                Some(Err(fault))
            }
        }
    }
}

// A file, its format and an offset are `Records` to who goes over the records; a call for one record
// takes them apart.

/// The record that begins at the offset; `Ok(None)` at the file's end. Refused, with the offset, if the
/// record's header or its packet is cut; so is any offset behind the file's end.
pub fn next<'a>(
    file: &'a [u8],
    format: Format,
    offset: usize,
) -> Result<Option<Record<'a>>, CaptureFault>
    ensures { Gives format file.entry offset result }
{
    let entry = entry_at(file, format, offset)?;
    Ok(entry.map(|entry| Record {
        entry,
        packet: &file[entry.begin..entry.next],
    }))
}

/// What the record that begins at the offset says, without its packet; `Ok(None)` at the file's end.
/// Refused as by `next`.
pub fn entry_at(file: &[u8], format: Format, offset: usize) -> Result<Option<Entry>, CaptureFault>
    ensures is { result ≡ record_at format file.now offset }
    ensures steps { Steps (length file.now) offset result }
{
    if offset == file.len() {
        return Ok(None);
    }
    if file.len() < 16 || file.len() - 16 < offset {
        return Err(CaptureFault::HeaderCut { offset });
    }
    let captured = number_at(file, format.order, offset + 8);
    let begin = offset + 16;
    let there = file.len() - begin;
    let length = captured as usize;
    if there < length {
        return Err(CaptureFault::PacketCut {
            offset,
            captured,
            there,
        });
    }
    Ok(Some(Entry {
        seconds: number_at(file, format.order, offset),
        fraction: number_at(file, format.order, offset + 4),
        original: number_at(file, format.order, offset + 12),
        begin,
        length,
        next: begin + length,
    }))
}
