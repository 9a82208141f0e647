// A packet's walk as a person reads it.
use crate::packets::{Detail, Packets, Telling};
use crate::reading_text::{MarkText, print_outcome};
use console::failure::Failure;
use graphs::graph::Graph;
use headers::mark::Mark;
use refusals::refusal::Refusal;
use taps::tap::NO_MARK;
use walker::walk::{MOST_MARKS, walk};

/// Walks each packet of a capture through the graph, or the one packet that the file is, and prints
/// its marks and how its walk ended. A packet that is refused is passed over. Fails where the capture
/// is cut or not of Ethernet, once what came before is printed.
pub fn print_walks<'a>(
    rt: &(impl Print + Eprint + AllocGlobal),
    graph: &Graph,
    file: &[u8],
) -> Result<(), Failure<'a>> {
    let packets = Packets::of(file)?;
    packets.tell_each(rt, Detail::Packets, &mut Walks { graph })?;
    if let Some(count) = packets.capture_count() {
        println!(rt; "{count} packets")?;
    }
    Ok(())
}

// The walks of packets through a graph.
#[derive(Clone, Copy)]
struct Walks<'g> {
    graph: &'g Graph,
}

impl Telling for Walks<'_> {
    // Walks the packet through the graph, and prints its marks and how the walk ended. Refused as the
    // walk is, by 4 to 6, 10 and 11.
    fn tell<'f>(
        &mut self,
        rt: &(impl Print + AllocGlobal),
        packet: &[u8],
    ) -> Result<(), Failure<'f>> {
        let mut marks = vec![in rt.alloc(); NO_MARK; MOST_MARKS]?;
        let walked = walk(self.graph, packet, marks.as_mut_slice()).map_err(Refusal::from)?;
        println!(rt; "node  kind      offset  length")?;
        for mark in marks.iter().take(walked.marks) {
            // One text a line: each text that is printed is written by itself.
            println!(rt; "{}", MarkText(*mark))?;
        }
        print_outcome(rt, packet, walked.outcome)
    }
}
