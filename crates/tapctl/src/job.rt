// Packets read by a tap as a person reads them.
use crate::packets::{Detail, Packets, Telling};
use crate::reading_text::{print_reading, print_report};
use crate::table_text::StoreKind;
use console::failure::Failure;
use headers::mark::Mark;
use refusals::refusal::Refusal;
use slices::pile::fresh_pile;
use slices::sliced::Sliced;
use stores::listing::Listing;
use stores::store::Store;
use taps::tap::{NO_MARK, Tap};
use walker::walk::MOST_MARKS;

/// A graph file, a plan, and the packets that are read by them: a capture, or one packet.
#[derive(Clone, Copy)]
pub struct Job<'a> {
    pub file: &'a [u8],
    pub plan: &'a [u8],
    pub packets: &'a [u8],
}

impl Job<'_> {
    /// Loads graph and plan into a tap over a store, reads the packets, and prints what each is read as
    /// and the report. Refused by 1 to 9 as the load is; a capture's packet that is refused is told and
    /// passed over. Fails where the capture is cut or not of Ethernet, once what came before is printed.
    pub fn print<'a>(
        &self,
        rt: &(impl Print + Eprint + AllocGlobal),
        store: StoreKind,
        detail: Detail,
    ) -> Result<(), Failure<'a>> {
        match store {
            StoreKind::Listing => self.print_by(rt, Listing::new(), detail),
            StoreKind::Sliced => self.print_by(rt, Sliced::new(), detail),
            StoreKind::Pile => self.print_by(rt, fresh_pile(), detail),
        }
    }

    fn print_by<'a, S: Store + Drop>(
        &self,
        rt: &(impl Print + Eprint + AllocGlobal),
        store: S,
        detail: Detail,
    ) -> Result<(), Failure<'a>> {
        let mut tap = Tap::new(store);
        tap.load(self.file, self.plan).map_err(Refusal::from)?;
        let packets = Packets::of(self.packets)?;
        let marks = [NO_MARK; MOST_MARKS];
        let mut reads = Reads { tap, marks, detail };
        let read = packets.tell_each(rt, detail, &mut reads);
        print_report(rt, &reads.tap.report())?;
        read
    }
}

// The reads of a tap.
#[derive(Drop)]
struct Reads<S> {
    tap: Tap<S>,
    marks: [Mark; MOST_MARKS],
    detail: Detail,
}

impl<S: Store> Telling for Reads<S> {
    // Reads a packet, and prints its marks with their fields and how the read ended. Refused by 10.
    fn tell<'f>(
        &mut self,
        rt: &(impl Print + AllocGlobal),
        packet: &[u8],
    ) -> Result<(), Failure<'f>> {
        let reading = self
            .tap
            .read(packet, &mut self.marks)
            .map_err(Refusal::from)?;
        match self.detail {
            Detail::Packets => print_reading(rt, packet, &reading, &self.marks),
            Detail::Summary => Ok(()),
        }
    }
}
