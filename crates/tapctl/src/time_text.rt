// How long loads and reads take.
use crate::job::Job;
use crate::packets::Packets;
use crate::table_text::StoreKind;
use console::failure::Failure;
use refusals::refusal::Refusal;
use slices::pile::fresh_pile;
use slices::sliced::Sliced;
use std::io;
use std::rt::Clock;
use std::time::{Duration, Instant};
use stores::listing::Listing;
use stores::store::Store;
use taps::tap::{NO_MARK, Tap};
use walker::walk::MOST_MARKS;

// How many loads are timed, and about how many reads.
const LOADS: u32 = 1_000;

const READS: usize = 1_000_000;

// What the timed reads come to.
#[derive(Clone, Copy)]
struct Total {
    reads: u64,
    headers: u64,
    questions: u64,
}

impl Job<'_> {
    /// Times loads of graph and plan into a tap over a store, and reads of the packets, and prints how
    /// long one takes. Refused by 1 to 9 as the load is.
    pub fn print_times<'a>(
        &self,
        rt: &(impl Print + Clock + AllocGlobal),
        store: StoreKind,
    ) -> Result<(), Failure<'a>> {
        match store {
            StoreKind::Listing => self.time_by(rt, Listing::new()),
            StoreKind::Sliced => self.time_by(rt, Sliced::new()),
            StoreKind::Pile => self.time_by(rt, fresh_pile()),
        }
    }

    fn time_by<'a, S: Store + Drop>(
        &self,
        rt: &(impl Print + Clock + AllocGlobal),
        store: S,
    ) -> Result<(), Failure<'a>> {
        let packets = Packets::of(self.packets)?;
        packets.whole()?;
        let list = packets.list(rt.alloc())?;
        let mut tap = Tap::new(store);
        let start = Instant::now(rt)?;
        for _ in 0..LOADS {
            tap.load(self.file, self.plan).map_err(Refusal::from)?;
        }
        let loading = start.elapsed(rt)?;
        print_time(rt, "loads", u64::from(LOADS), loading)?;
        let start = Instant::now(rt)?;
        let total = read_over(&mut tap, list.as_slice());
        let reading = start.elapsed(rt)?;
        print_time(rt, "reads", total.reads, reading)?;
        print_time(rt, "headers", total.headers, reading)?;
        let questions = total.questions;
        println!(rt; "questions: {questions}")?;
        Ok(())
    }
}

// Reads the packets over and over.
fn read_over<S: Store>(tap: &mut Tap<S>, packets: &[&[u8]]) -> Total {
    let mut marks = [NO_MARK; MOST_MARKS];
    let mut total = Total {
        reads: 0,
        headers: 0,
        questions: 0,
    };
    let rounds = READS.checked_div(packets.len()).unwrap_or(0).max(1);
    for _ in 0..rounds {
        for packet in packets {
            if let Ok(reading) = tap.read(packet, &mut marks) {
                total.reads = total.reads.saturating_add(1);
                total.headers = total.headers.saturating_add(reading.marks as u64);
                total.questions = total.questions.saturating_add(u64::from(reading.questions));
            }
        }
    }
    total
}

// Prints how many there were, and how long one took.
fn print_time(rt: &impl Print, name: &str, count: u64, time: Duration) -> io::Result<()> {
    let each = time.as_nanos().checked_div(u128::from(count)).unwrap_or(0);
    println!(rt; "{name}: {count}, {each} ns each")
}
