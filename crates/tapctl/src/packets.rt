// The packets of a file, and what is told of each.
use captures::format::{Format, HEADER, is_capture, open};
use captures::records::Records;
use captures::survey::{Survey, count_records};
use console::failure::Failure;
use std::alloc::Global;
use std::io;

// After so many packets the standard error tells how far a command has come.
const STRIDE: usize = 100_000;

/// What is printed: each packet and then what they come to, or that alone.
#[derive(Clone, Copy)]
pub enum Detail {
    Packets,
    Summary,
}

/// The packets of a file, in order: those of a capture, or the one packet that the file is. None is kept:
/// each is taken from the file where it is needed.
#[derive(Clone, Copy)]
pub struct Packets<'a> {
    file: &'a [u8],
    /// None where the file is one packet.
    capture: Option<Capture>,
}

// How a capture is spelled, how many packets it has, and what cuts it short behind the last.
#[derive(Clone, Copy)]
struct Capture {
    format: Format,
    survey: Survey,
}

/// What is told of the packets of a file, one after the other.
pub trait Telling {
    /// Tells of the next packet. Refused as the packet is.
    fn tell<'f>(
        &mut self,
        rt: &(impl Print + AllocGlobal),
        packet: &[u8],
    ) -> Result<(), Failure<'f>>;
}

impl<'a> Packets<'a> {
    /// The packets of a file. Fails if the file is a capture that is not of Ethernet.
    pub fn of<'f>(file: &'a [u8]) -> Result<Packets<'a>, Failure<'f>> {
        if !is_capture(file) {
            let capture = None;
            return Ok(Packets { file, capture });
        }
        let format = open(file)?;
        let survey = count_records(file, format, HEADER);
        let capture = Some(Capture { format, survey });
        Ok(Packets { file, capture })
    }

    /// How many packets the capture has, up to its end or to the first that is cut. None where the file
    /// is one packet.
    pub fn capture_count(&self) -> Option<usize> {
        self.capture.map(|capture| capture.survey.records)
    }

    /// Fails if the capture is cut.
    pub fn whole<'f>(&self) -> Result<(), Failure<'f>> {
        match self.capture.and_then(|capture| capture.survey.fault) {
            Some(fault) => Err(Failure::Capture(fault)),
            None => Ok(()),
        }
    }

    /// All packets, up to the capture's end or to the first that is cut, which `whole` tells.
    pub fn list<'f>(&self, heap: Global) -> Result<Vec<&'a [u8]>, Failure<'f>> {
        let mut list = Vec::new(heap);
        let Some(capture) = self.capture else {
            list.push(self.file)?;
            return Ok(list);
        };
        for record in Records::new(self.file, capture.format, HEADER) {
            if let Ok(record) = record {
                list.push(record.packet)?;
            }
        }
        Ok(list)
    }

    /// Tells of each packet, and why one of a capture's is refused, under a heading for each; in a
    /// summary only one that is refused has a heading. Refused as the file's one packet is; fails where
    /// the capture is cut, once what came before is told. The standard error tells how far it has come.
    pub fn tell_each<'f>(
        &self,
        rt: &(impl Print + Eprint + AllocGlobal),
        detail: Detail,
        telling: &mut impl Telling,
    ) -> Result<(), Failure<'f>> {
        let Some(capture) = self.capture else {
            return telling.tell(rt, self.file);
        };
        let records = Records::new(self.file, capture.format, HEADER);
        for (number, record) in records.enumerate() {
            let packet = record?.packet;
            print_progress(rt, number, capture.survey.records);
            tell_record(rt, detail, telling, number, packet)?;
        }
        Ok(())
    }
}

// Prints how far a command has come, now and then. Where that cannot be printed, the command goes on: only
// what it prints on the standard output is its work.
fn print_progress(rt: &impl Eprint, number: usize, count: usize) {
    if number > 0 && number % STRIDE == 0 {
        let _told = eprintln!(rt; "{number} of {count} packets");
    }
}

// Tells of a capture's packet, or why it is refused, under a heading; in a summary only one that is
// refused has a heading.
fn tell_record<'f>(
    rt: &(impl Print + AllocGlobal),
    detail: Detail,
    telling: &mut impl Telling,
    number: usize,
    packet: &[u8],
) -> Result<(), Failure<'f>> {
    if let Detail::Packets = detail {
        print_heading(rt, number, packet)?;
    }
    match telling.tell(rt, packet) {
        Err(Failure::Refused(refusal)) => {
            if let Detail::Summary = detail {
                print_heading(rt, number, packet)?;
            }
            println!(rt; "refused: {refusal}")?;
            Ok(())
        }
        other => other,
    }
}

// The number and the length of a capture's packet.
fn print_heading(rt: &impl Print, number: usize, packet: &[u8]) -> io::Result<()> {
    let length = packet.len();
    println!(rt; "packet {number}: {length} bytes")
}
