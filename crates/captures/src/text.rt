// What is wrong with a capture, in words.
ghost use Rattle.std.specs.Prelude.{Some};
ghost use Rattle.captures.specs.Words.{fault_text};

use crate::fault::CaptureFault;
use std::fmt;

// By hand: a `write!` for each case is as plain as a derive of another crate's.
impl fmt::Display for CaptureFault {
    ghost output = { λ fault. Some (fault_text fault) };

    fn fmt<W: fmt::Write>(&self, f: &mut fmt::Formatter<W>) -> fmt::Result {
        match self {
            CaptureFault::NotCapture => write!(f, "the file has no whole header of a capture"),
            CaptureFault::NotEthernet { link } => {
                write!(f, "the capture's link type is {link}, and not 1, Ethernet")
            }
            CaptureFault::HeaderCut { offset } => {
                write!(f, "the capture is cut inside the record at {offset}")
            }
            CaptureFault::PacketCut {
                offset,
                captured,
                there,
            } => write!(
                f,
                "the capture is cut inside the record at {offset}: {there} of {captured} bytes are there"
            ),
        }
    }
}
