// A tap that is told what to do line by line: load, read, report.
use crate::packets::{Detail, Packets, Telling};
use crate::program::LineTaker;
use crate::reading_text::{print_reading, print_report};
use console::failure::Failure;
use console::files::bytes_of;
use headers::mark::Mark;
use refusals::refusal::Refusal;
use runs::calls::{Answer, Call};
use runs::make::make_call;
use std::rt::{Clock, Files};
use stores::store::Store;
use taps::tap::{NO_MARK, Tap};
use walker::walk::MOST_MARKS;

/// How a session is told what to do.
const USAGE: &str = "usage of a session's line:
  load FILE PLAN           loads graph and plan in place of what is loaded
  read PACKETS             reads a packet or those of a capture
  report                   prints the counts";

/// A tap whose calls come in lines.
#[derive(Drop)]
pub struct Session<S> {
    tap: Tap<S>,
}

// Reads by a tap, packet by packet, each with the marks that the one before left.
#[derive(Drop)]
struct Reads<'t, S> {
    tap: &'t mut Tap<S>,
    marks: [Mark; MOST_MARKS],
}

impl<S: Store> Session<S> {
    /// A new tap over the store.
    pub fn new(store: S) -> Session<S> {
        Session {
            tap: Tap::new(store),
        }
    }

    /// Makes the calls that the words say, and prints what they answer. None if the words say no call.
    pub fn carry_out<'a>(
        &mut self,
        rt: &(impl Files + Print + Eprint + AllocGlobal),
        words: &[&'a str],
    ) -> Option<Result<(), Failure<'a>>> {
        match words {
            ["load", file, plan] => Some(self.load(rt, file, plan)),
            ["read", packets] => Some(self.read(rt, packets)),
            ["report"] => Some(self.report(rt)),
            _ => None,
        }
    }

    // Loads a graph and a plan. Refused by 1 to 9.
    fn load<'a>(
        &mut self,
        rt: &(impl Files + Print + AllocGlobal),
        file: &'a str,
        plan: &'a str,
    ) -> Result<(), Failure<'a>> {
        let file = bytes_of(rt, file)?;
        let plan = bytes_of(rt, plan)?;
        let call = Call::Load {
            file: file.as_slice(),
            plan: plan.as_slice(),
        };
        print_answer(rt, &make_call(&mut self.tap, call, &mut []))
    }

    // Reads the packets of a file, and prints what each is read as. The file's one packet is refused by
    // 10 and 12; why a capture's is refused is told, and it is passed over.
    fn read<'a>(
        &mut self,
        rt: &(impl Files + Print + Eprint + AllocGlobal),
        packets: &'a str,
    ) -> Result<(), Failure<'a>> {
        let file = bytes_of(rt, packets)?;
        let packets = Packets::of(file.as_slice())?;
        let mut reads = Reads {
            tap: &mut self.tap,
            marks: [NO_MARK; MOST_MARKS],
        };
        packets.tell_each(rt, Detail::Packets, &mut reads)
    }

    // Prints the counts.
    fn report<'a>(&mut self, rt: &(impl Print + AllocGlobal)) -> Result<(), Failure<'a>> {
        print_answer(rt, &make_call(&mut self.tap, Call::Report, &mut []))
    }
}

impl<S: Store> LineTaker for Session<S> {
    fn take<'a>(
        &mut self,
        rt: &(impl Files + Print + Eprint + Clock + AllocGlobal),
        words: &[&'a str],
    ) -> Result<(), Failure<'a>> {
        self.carry_out(rt, words)
            .unwrap_or(Err(Failure::Usage(USAGE)))
    }
}

impl<S: Store> Telling for Reads<'_, S> {
    // Reads the packet, and prints what it was read as. Refused as the read is.
    fn tell<'f>(
        &mut self,
        rt: &(impl Print + AllocGlobal),
        packet: &[u8],
    ) -> Result<(), Failure<'f>> {
        let room = MOST_MARKS;
        let call = Call::Read { packet, room };
        if let Answer::Read(answer) = make_call(self.tap, call, &mut self.marks) {
            let reading = answer.map_err(Refusal::from)?;
            print_reading(rt, packet, &reading, &self.marks)?;
        }
        Ok(())
    }
}

// Prints that a load was accepted, or a report. Refused as the load was.
fn print_answer<'a>(rt: &impl Print, answer: &Answer) -> Result<(), Failure<'a>> {
    match answer {
        Answer::Load(loaded) => {
            (*loaded).map_err(Refusal::from)?;
            println!(rt; "loaded")?;
        }
        Answer::Report(report) => print_report(rt, report)?,
        Answer::Read(_) => {}
    }
    Ok(())
}
