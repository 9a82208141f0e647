// Marks, readings and counts as a person reads them.
use console::failure::Failure;
use console::hex::Hex;
use headers::kinds::Kind;
use headers::mark::Mark;
use headers::part::{field, payload};
use readers::read::Reading;
use refusals::refusal::Refusal;
use std::{fmt, io};
use taps::counts::{Endings, Report};
use walks::outcome::Outcome;

// The most fields of a kind.
const FIELDS: usize = 4;

/// Prints the marks of a packet with their fields, how the read ended, and its questions.
pub fn print_reading<'a>(
    rt: &impl Print,
    packet: &[u8],
    reading: &Reading,
    marks: &[Mark],
) -> Result<(), Failure<'a>> {
    println!(rt; "node  kind      offset  length  fields")?;
    for mark in marks.iter().take(reading.marks) {
        print_fields(rt, packet, mark)?;
    }
    print_outcome(rt, packet, reading.outcome)?;
    let questions = reading.questions;
    println!(rt; "questions: {questions}")?;
    Ok(())
}

// Prints a mark with the fields of its kind in hex.
fn print_fields<'a>(rt: &impl Print, packet: &[u8], mark: &Mark) -> Result<(), Failure<'a>> {
    print!(rt; "{}", MarkText(*mark))?;
    for number in 0..FIELDS {
        if let Some(bytes) = field(packet, mark, number).map_err(Refusal::from)? {
            print!(rt; "  {}", Hex(bytes))?;
        }
    }
    println!(rt; "")?;
    Ok(())
}

/// A mark in words: its node, kind, offset and length, in columns.
#[derive(Clone, Copy)]
pub struct MarkText(pub Mark);

impl fmt::Display for MarkText {
    fn fmt<W: fmt::Write>(&self, f: &mut fmt::Formatter<W>) -> fmt::Result {
        let Mark {
            node,
            kind,
            offset,
            length,
        } = self.0;
        match Kind::try_from(kind) {
            Ok(kind) => write!(f, "{node:>4}  {kind:<8}  {offset:>6}  {length:>6}"),
            Err(_) => write!(f, "{node:>4}  unknown   {offset:>6}  {length:>6}"),
        }
    }
}

/// Prints where the payload begins and how long it is, or the number by which the walk ended.
pub fn print_outcome<'a>(
    rt: &impl Print,
    packet: &[u8],
    outcome: Outcome,
) -> Result<(), Failure<'a>> {
    match outcome.refusal() {
        Some(refusal) => println!(rt; "ended: {refusal}")?,
        None => {
            let offset = outcome.offset;
            let length = payload(packet, usize::from(offset))
                .map_err(Refusal::from)?
                .len();
            println!(rt; "done: payload at {offset}, {length} bytes")?;
        }
    }
    Ok(())
}

/// Prints the counts of a tap.
pub fn print_report(rt: &impl Print, report: &Report) -> io::Result<()> {
    println!(rt; "report")?;
    println!(rt; "kind         headers       bytes")?;
    for (number, tally) in report.tallies.iter().enumerate() {
        if let Ok(kind) = Kind::try_from(number as u8) {
            let (headers, bytes) = (tally.headers, tally.bytes);
            println!(rt; "{kind:<8}  {headers:>10}  {bytes:>10}")?;
        }
    }
    print_endings(rt, report.endings)
}

fn print_endings(rt: &impl Print, endings: Endings) -> io::Result<()> {
    let Endings {
        done,
        cut,
        short,
        unfit,
        dropped,
    } = endings;
    println!(rt; "done          {done:>10}")?;
    println!(rt; "13, cut       {cut:>10}")?;
    println!(rt; "14, short     {short:>10}")?;
    println!(rt; "15, no row    {unfit:>10}")?;
    println!(rt; "16, dropped   {dropped:>10}")
}
