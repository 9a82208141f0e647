// How many records a capture file has.
ghost use Rattle.captures.specs.Captures.{Surveyed};

use crate::fault::CaptureFault;
use crate::format::Format;
use crate::records::Records;

/// How many whole records there are, and the fault that ends them, if they do not end with the file.
#[derive(Clone, Copy, PartialEq, Eq, Debug)]
pub struct Survey {
    pub records: usize,
    pub fault: Option<CaptureFault>,
}

/// The records from an offset on, counted up to the file's end or to the first that is cut.
pub fn count_records(file: &[u8], format: Format, from: usize) -> Survey
    ensures { Surveyed format file.now from result }
{
    // Counted by hand: a cut record ends the counting at once, and its fault is told with the count.
    let mut records = 0;
    for record in Records::new(file, format, from) {
        if let Err(fault) = record {
            return Survey {
                records,
                fault: Some(fault),
            };
        }
        records += 1;
    }
    Survey {
        records,
        fault: None,
    }
}
