// The demonstration: the whole way from a graph made here to the report of a tap.
use crate::demo_graph::ethernet_to_tcp;
use crate::reading_text::{print_reading, print_report};
use console::failure::Failure;
use console::files::{copy_of, file_of};
use console::graph_text::{print_accepted, print_graph};
use graph_reader::read::read_graph;
use graphs::graph::Graph;
use plans::count::row_count;
use plans::read::read_plan;
use refusals::refusal::Refusal;
use slices::sliced::Sliced;
use stores::store::Store;
use taps::tap::{NO_MARK, Tap};
use walker::walk::MOST_MARKS;

// A packet of Ethernet, a tag, IPv4 and TCP, and four bytes behind them.
const TAGGED: [u8; 62] = [
    // to and from, the type of a tag
    2, 0, 0, 0, 0, 1, 2, 0, 0, 0, 0, 2, 0x81, 0,
    // VLAN 100, the type of IPv4
    0, 100, 8, 0,
    // version and header length, length in all, not to fragment, 64 hops, TCP, checksum, addresses
    0x45, 0, 0, 44, 0, 0, 0x40, 0, 64, 6, 0x4e, 0x95, 192, 0, 2, 1, 198, 51, 100, 2,
    // ports, numbers, header length, flags, window, checksum, urgent pointer
    0xc0, 0, 0, 80, 0, 0, 0, 1, 0, 0, 0, 1, 0x50, 0x18, 0x10, 0, 0x14, 0x6e, 0, 0,
    // payload
    0x70, 0x69, 0x6e, 0x67,
];

// A plan for the graph: node 0 takes node 1 with it, and the other nodes stand alone.
const TAG_IN_ONE_LOOK: [u8; 16] = [1, 1, 0, 0, 0, 0, 0, 0, 0, 0, 0, 0, 0, 0, 0, 0];

/// Writes the graph of Ethernet, a VLAN tag, IPv4 and TCP, reads it back, checks, shows and copies
/// it, makes a plan that takes Ethernet and the tag in one look, loads both into a tap, reads four
/// packets and prints the report, all in memory.
pub fn demo<'a>(rt: &(impl Print + AllocGlobal)) -> Result<(), Failure<'a>> {
    let file = written(rt)?;
    let graph = read_graph(file.as_slice())?;
    print_plan(rt, &graph)?;
    let mut tap = Tap::new(Sliced::new());
    tap.load(file.as_slice(), &TAG_IN_ONE_LOOK)
        .map_err(Refusal::from)?;
    println!(rt; "load: done, into a sliced store")?;
    read_packets(rt, &mut tap)?;
    print_report(rt, &tap.report())?;
    println!(rt;
        "demo: written, read back, checked, shown, copied, planned, loaded, read and reported"
    )?;
    Ok(())
}

// The graph's file, which is checked, shown and copied.
fn written<'a>(rt: &(impl Print + AllocGlobal)) -> Result<Vec<u8>, Failure<'a>> {
    let bytes = file_of(rt.alloc(), &ethernet_to_tcp())?;
    let count = bytes.len();
    println!(rt; "write: Ethernet, a VLAN tag, IPv4 and TCP make a file of {count} bytes")?;
    let graph = read_graph(bytes.as_slice())?;
    print!(rt; "check: ")?;
    print_accepted(rt, &graph)?;
    println!(rt; "show:")?;
    print_graph(rt, &graph)?;
    let copied = copy_of(rt.alloc(), bytes.as_slice())?;
    if copied.as_slice() != bytes.as_slice() {
        return Err(Failure::Differs);
    }
    println!(rt; "copy: {count} bytes, the same")?;
    Ok(bytes)
}

// Says what the plan takes in one look, and how many rows graph and plan need.
fn print_plan<'a>(rt: &impl Print, graph: &Graph) -> Result<(), Failure<'a>> {
    let chains = read_plan(graph, &TAG_IN_ONE_LOOK).map_err(Refusal::from)?;
    let rows = row_count(graph, &chains);
    println!(rt; "plan: Ethernet and the tag in one look; graph and plan need {rows} rows")?;
    Ok(())
}

// Reads four packets that end in different ways.
fn read_packets<'a, S: Store>(rt: &impl Print, tap: &mut Tap<S>) -> Result<(), Failure<'a>> {
    read_packet(rt, tap, "a tagged TCP packet", &TAGGED)?;
    read_packet(rt, tap, "the same, cut inside TCP", &TAGGED[..50])?;
    let mut short = TAGGED;
    short[18] = 0x44;
    read_packet(rt, tap, "the same, IPv4 with a length of 16", &short)?;
    let mut arp = TAGGED;
    arp[12] = 0x08;
    arp[13] = 0x06;
    read_packet(rt, tap, "the same, with the type of ARP", &arp)
}

fn read_packet<'a, S: Store>(
    rt: &impl Print,
    tap: &mut Tap<S>,
    name: &str,
    packet: &[u8],
) -> Result<(), Failure<'a>> {
    let length = packet.len();
    println!(rt; "read: {name}, {length} bytes")?;
    let mut marks = [NO_MARK; MOST_MARKS];
    let reading = tap.read(packet, &mut marks).map_err(Refusal::from)?;
    print_reading(rt, packet, &reading, &marks)
}
