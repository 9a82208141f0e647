// What can come in the way of a command.
ghost use Rattle.std.specs.Prelude.{◌≡◌};
ghost use Rattle.graph_reader.specs.Faults.{of_read};
ghost use Rattle.graph_writer.specs.Faults.{of_write};
ghost use Rattle.stores.specs.Faults.{of_store};
ghost use Rattle.console.specs.declared.failure.Failure.TheVariants.{Refused, Capture};

use captures::fault::CaptureFault;
use graph_reader::fault::ReadFault;
use graph_writer::fault::WriteFault;
use refusals::refusal::Refusal;
use std::alloc::{AllocError, AllocFailed};
use std::{fmt, io};
use stores::fault::StoreFault;

/// Why a command was not carried out.
#[derive(Clone, Copy)]
pub enum Failure<'a> {
    /// The file, the graph, the plan or the packet is refused.
    Refused(Refusal),
    /// The file cannot be read.
    Unread { file: &'a str, why: io::Error },
    /// The file cannot be written.
    Unwritten { file: &'a str, why: io::Error },
    /// The capture is cut, or holds no Ethernet packets.
    Capture(CaptureFault),
    /// The copy has other bytes than what it was made from.
    Differs,
    /// The word says no chain of one of the graph's nodes.
    NoChain { word: &'a str },
    /// The words are no command of the program, which is called as the text says.
    Usage(&'static str),
    /// The system gave no memory, no input, or took no output.
    System(io::Error),
}

// By hand, and the impls of `From` below: a case each is as plain as a derive of another crate's.
impl fmt::Display for Failure<'_> {
    fn fmt<W: fmt::Write>(&self, f: &mut fmt::Formatter<W>) -> fmt::Result {
        match self {
            Failure::Refused(refusal) => write!(f, "refused: {refusal}"),
            Failure::Unread { file, why } => write!(f, "cannot read {file}: {why}"),
            Failure::Unwritten { file, why } => write!(f, "cannot write {file}: {why}"),
            Failure::Capture(fault) => write!(f, "failed: {fault}"),
            Failure::Differs => write!(f, "failed: the copy differs from the file"),
            Failure::NoChain { word } => write!(
                f,
                "failed: {word} is no chain of one of the graph's nodes, as 0:1 or 2:3,4"
            ),
            Failure::Usage(usage) => write!(f, "{usage}"),
            Failure::System(why) => write!(f, "failed: {why}"),
        }
    }
}

impl<'a> From<Refusal> for Failure<'a> {
    ghost from_gives = { λ refusal failure. failure ≡ Refused refusal };

    fn from(refusal: Refusal) -> Failure<'a> {
        Failure::Refused(refusal)
    }
}

// The faults of plans, compiling, walks and taps become refusals at the call: `console` does not rest
// on their crates.
// One impl for each fault: one for all that become refusals would meet those of std's errors below.
impl<'a> From<ReadFault> for Failure<'a> {
    ghost from_gives = { λ fault failure. failure ≡ Refused (of_read fault) };

    fn from(fault: ReadFault) -> Failure<'a> {
        Failure::Refused(Refusal::from(fault))
    }
}

impl<'a> From<WriteFault> for Failure<'a> {
    ghost from_gives = { λ fault failure. failure ≡ Refused (of_write fault) };

    fn from(fault: WriteFault) -> Failure<'a> {
        Failure::Refused(Refusal::from(fault))
    }
}

impl<'a> From<StoreFault> for Failure<'a> {
    ghost from_gives = { λ fault failure. failure ≡ Refused (of_store fault) };

    fn from(fault: StoreFault) -> Failure<'a> {
        Failure::Refused(Refusal::from(fault))
    }
}

impl<'a> From<CaptureFault> for Failure<'a> {
    ghost from_gives = { λ fault failure. failure ≡ Capture fault };

    fn from(fault: CaptureFault) -> Failure<'a> {
        Failure::Capture(fault)
    }
}

impl<'a> From<io::Error> for Failure<'a> {
    fn from(error: io::Error) -> Failure<'a> {
        Failure::System(error)
    }
}

impl<'a> From<AllocError> for Failure<'a> {
    fn from(error: AllocError) -> Failure<'a> {
        Failure::System(io::Error::from(error))
    }
}

impl<'a, T: Drop> From<AllocFailed<T>> for Failure<'a> {
    fn from(_refused: AllocFailed<T>) -> Failure<'a> {
        Failure::System(io::Error::from(AllocError))
    }
}
