// The tap and its calls.
ghost use Rattle.std.specs.Prelude.{◌≡◌, length, OnErr};
ghost use Rattle.refusals.specs.Searching.{fault_of};
ghost use Rattle.headers.specs.Table.{minimum_in, standard_table};
ghost use Rattle.compiler.specs.Loading.{load_fault};
ghost use Rattle.taps.specs.Faults.{packet_fault};
ghost use Rattle.taps.specs.Counts.{report_of};
ghost use Rattle.taps.specs.Held.{report_in};
ghost use Rattle.taps.specs.Plain.{PlainTap, fresh};
ghost use Rattle.taps.specs.Following.{Follows, LoadFollows, ReadFollows, PutsQuestions, MarksHaveFields, after_load};

use crate::counts::Report;
use crate::fault::PacketFault;
use crate::inner::Inner;
use compiler::compile::compile;
use compiler::fault::LoadFault;
use compiler::program::Program;
use headers::mark::Mark;
use readers::read::{Reading, read};
use stores::store::Store;
use walker::walk::{MOST_MARKS, MOST_PACKET};

/// A mark of zeros, which no read writes: what stands in marks before they are lent.
pub const NO_MARK: Mark = Mark {
    node: 0,
    kind: 0,
    offset: 0,
    length: 0,
};

/// A store with the graph and the plan last loaded into it, and counts of what was read.
#[derive(Drop)]
pub struct Tap<S> {
    inner: Inner<S>,
}

impl<S: Store> Tap<S> {
    /// A tap with nothing loaded and counts of 0, over a store in any state.
    pub fn new(store: S) -> Tap<S>
        ensures store { result.inner.store ≡ store }
        ensures follows { Follows S.Store.meaning result fresh }
    {
        Tap {
            inner: Inner::new(store),
        }
    }

    /// Loads a graph file and a plan in place of what was loaded. Refused by 1 to 9 as `compile` is,
    /// and then nothing changes. The counts stay in any case.
    pub fn load(&mut self, file: &[u8], plan: &[u8]) -> Result<(), LoadFault>
        ensures is { fault_of result ≡ load_fault (minimum_in standard_table) file.now plan.now (S.Store.meaning self.old.inner.store).capacity }
        ensures kept { OnErr result (self.new ≡ self.old) }
        ensures counts { report_in self.new.inner ≡ report_in self.old.inner }
        ensures store { S.Store.meaning self.new.inner.store ≡ after_load result file.now plan.now (S.Store.meaning self.old.inner.store) }
        ensures capacity { (S.Store.meaning self.new.inner.store).capacity ≡ (S.Store.meaning self.old.inner.store).capacity }
        ensures follows { (p : PlainTap) → Follows S.Store.meaning self.old p → LoadFollows p file.now plan.now (S.Store.meaning self.old.inner.store).capacity result (Follows S.Store.meaning self.new) }
    {
        let mut program = Program::none();
        compile(file, plan, &mut self.inner.store, &mut program)?;
        self.inner.program = Some(program);
        Ok(())
    }

    /// Reads a packet by what is loaded, writes each header's mark in order to the front of `marks`,
    /// and counts the marks and the ending; the marks behind stay. Refused by 10 if the packet has
    /// more than 9,600 bytes, then by 11 if there are fewer than 32 marks, then by 12 if nothing is
    /// loaded, and then nothing changes.
    pub fn read(&mut self, packet: &[u8], marks: &mut [Mark]) -> Result<Reading, PacketFault>
        ensures is { fault_of result ≡ packet_fault (length packet.now) (length marks.old) self.old.inner.program }
        ensures kept { OnErr result ((self.new ≡ self.old) × (marks.new ≡ marks.old)) }
        ensures store { PutsQuestions (S.Store.meaning self.old.inner.store) (S.Store.meaning self.new.inner.store) result }
        ensures capacity { (S.Store.meaning self.new.inner.store).capacity ≡ (S.Store.meaning self.old.inner.store).capacity }
        ensures follows { (p : PlainTap) → Follows S.Store.meaning self.old p →
            ReadFollows p packet.now marks.old marks.new result
            (S.Store.meaning self.old.inner.store) (S.Store.meaning self.new.inner.store)
            (Follows S.Store.meaning self.new) }
        ensures fields { (p : PlainTap) → Follows S.Store.meaning self.old p →
            MarksHaveFields (length packet.now) marks.new result }
    {
        if packet.len() > MOST_PACKET {
            return Err(PacketFault::LongPacket);
        }
        if marks.len() < MOST_MARKS {
            return Err(PacketFault::FewMarks);
        }
        let inner = &mut self.inner;
        let Some(program) = &inner.program else {
            return Err(PacketFault::NothingLoaded);
        };
        let reading = read(program, &mut inner.store, packet, marks);
        inner.count(&marks[..reading.marks], reading.outcome.ending);
        Ok(reading)
    }

    /// The counts so far.
    pub fn report(&self) -> Report
        ensures is { result ≡ report_in self.now.inner }
        ensures follows { (p : PlainTap) → Follows S.Store.meaning self.now p → result ≡ report_of p.counts }
    {
        self.inner.report()
    }
}
