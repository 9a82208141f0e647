// Calls, their answers, and the places for these.

use compiler::fault::LoadFault;
use headers::mark::Mark;
use readers::read::Reading;
use taps::counts::Report;
use taps::fault::PacketFault;

/// A call of a tap. A read is lent as many marks as `room` says, if there are so many.
#[derive(Clone, Copy)]
pub enum Call<'a> {
    Load { file: &'a [u8], plan: &'a [u8] },
    Read { packet: &'a [u8], room: usize },
    Report,
}

/// What a call answered.
#[derive(Clone, Copy, PartialEq, Eq, Debug)]
pub enum Answer {
    Load(Result<(), LoadFault>),
    Read(Result<Reading, PacketFault>),
    Report(Report),
}

/// A place for a call's answer, with the marks that a read is lent. A call takes what stands in its
/// place, leaves its answer there, and of the marks changes those that it writes.
#[derive(Clone, Copy, PartialEq, Eq, Debug)]
pub struct Reply<const N: usize> {
    pub answer: Answer,
    pub marks: [Mark; N],
}
