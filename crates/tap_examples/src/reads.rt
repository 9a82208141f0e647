// The sample graph on a tap: reads, refusals and reports, call by call.
use examples::sample::FOUR_NODES;
use headers::mark::Mark;
use readers::read::Reading;
use refusals::refusal::{Layer, Refusal};
use slices::pile::fresh_pile;
use slices::sliced::Sliced;
use std::process::Abort;
use stores::listing::Listing;
use stores::store::Store;
use taps::counts::{Endings, Report, Tally};
use taps::fault::PacketFault;
use taps::tap::{NO_MARK, Tap};
use walks::outcome::{Ending, Outcome};

// No chains; and the tag taken in one look with Ethernet.
pub(crate) const NO_CHAINS: [u8; 16] = [0; 16];

pub(crate) const TAG_CHAINED: [u8; 16] = [1, 1, 0, 0, 0, 0, 0, 0, 0, 0, 0, 0, 0, 0, 0, 0];

// Ethernet, tag, IPv4 and TCP.
pub(crate) const TAGGED: [u8; 58] = [
    0, 0, 0, 0, 0, 0, 0, 0, 0, 0, 0, 0, 0x81, 0, 0, 0, 8, 0, 0x45, 0, 0, 0, 0, 0, 0, 0, 0, 6, 0, 0,
    0, 0, 0, 0, 0, 0, 0, 0, 0, 0, 0, 0, 0, 0, 0, 0, 0, 0, 0, 0, 0x50, 0, 0, 0, 0, 0, 0, 0,
];

// What a reading tells.
fn told(
    ending: Ending,
    node: u8,
    offset: u16,
    marks: usize,
    questions: u8,
) -> Result<Reading, PacketFault> {
    let outcome = Outcome {
        ending,
        node,
        offset,
    };
    Ok(Reading {
        outcome,
        marks,
        questions,
    })
}

// How much of the packet is read, and what is told with the tag in one look, where four questions become
// three, and without.
const PARTS: [(usize, Ending, u8, u16, usize, u8, u8); 5] = [
    (58, Ending::Done, 3, 58, 4, 4, 3),
    (50, Ending::Cut, 3, 38, 3, 3, 2),
    (18, Ending::Cut, 2, 18, 2, 2, 1),
    (17, Ending::Cut, 1, 14, 1, 1, 1),
    (0, Ending::Cut, 0, 0, 0, 0, 0),
];

// Packets made from the tagged one and two bytes behind it: the places of changed bytes, and the size;
// how the read ends, with node and offset; the marks, the questions without chains, and those with the
// tag in one look.
const WORKED: [(&[(usize, u8)], usize, (Ending, u8, u16), [u8; 3]); 9] = [
    // four headers, each as short as it can be
    (&[], 58, (Ending::Done, 3, 58), [4, 4, 3]),
    // not to fragment
    (&[(24, 0x40)], 58, (Ending::Done, 3, 58), [4, 4, 3]),
    // a later fragment
    (&[(25, 1)], 58, (Ending::Done, 2, 38), [3, 3, 2]),
    // cut inside the tag
    (&[], 17, (Ending::Cut, 1, 14), [1, 1, 1]),
    // ARP behind the tag
    (&[(17, 6)], 18, (Ending::Done, 1, 18), [2, 2, 1]),
    // cut before IPv4, without a tag
    (&[(12, 8), (13, 0)], 14, (Ending::Cut, 2, 14), [1, 1, 1]),
    // empty
    (&[], 0, (Ending::Cut, 0, 0), [0, 0, 0]),
    // IPv4 of 16 bytes
    (&[(18, 0x44)], 58, (Ending::Short, 2, 18), [2, 2, 1]),
    // IPv6
    (
        &[(12, 0x86), (13, 0xdd)],
        60,
        (Ending::Dropped, 0, 0),
        [1, 1, 1],
    ),
];

// The tallies of those parts by the kinds' numbers, and the endings.
fn parts_counted() -> Report {
    let mut tallies = [tally(0, 0); 11];
    tallies[0] = tally(4, 56);
    tallies[1] = tally(3, 12);
    tallies[3] = tally(2, 40);
    tallies[5] = tally(1, 20);
    let endings = Endings {
        done: 1,
        cut: 4,
        short: 0,
        unfit: 0,
        dropped: 0,
    };
    Report { tallies, endings }
}

fn tally(headers: u32, bytes: u32) -> Tally {
    Tally { headers, bytes }
}

// Loads the sample on a new tap, reads the parts of the packet, and looks at the counts.
fn parts_are_read<S: Store + Drop>(rt: &impl Abort, store: S, plan: &[u8], chained: bool) {
    let mut tap = Tap::new(store);
    assert_eq!(rt; tap.load(&FOUR_NODES, plan), Ok(()));
    for (size, ending, node, offset, marks, alone, in_one) in PARTS {
        let mut lent = [NO_MARK; 33];
        let questions = if chained { in_one } else { alone };
        let answer = tap.read(&TAGGED[..size], &mut lent);
        assert_eq!(rt; answer, told(ending, node, offset, marks, questions));
    }
    assert_eq!(rt; tap.report(), parts_counted());
}

#[test]
fn parts_of_a_packet_are_read_and_counted(rt: HostRuntime) {
    parts_are_read(&rt, Listing::new(), &NO_CHAINS, false);
    parts_are_read(&rt, Sliced::new(), &NO_CHAINS, false);
    parts_are_read(&rt, Listing::new(), &TAG_CHAINED, true);
    parts_are_read(&rt, Sliced::new(), &TAG_CHAINED, true);
}

// The headers of the tagged packet. Those of each worked packet are the first of them.
pub(crate) fn headers() -> [Mark; 4] {
    [
        mark(0, 0, 0, 14),
        mark(1, 1, 14, 4),
        mark(2, 3, 18, 20),
        mark(3, 5, 38, 20),
    ]
}

// The first of those marks, and behind them what was lent.
fn first_headers(count: u8) -> [Mark; 32] {
    let mut marks = [NO_MARK; 32];
    for (place, header) in marks
        .iter_mut()
        .zip(headers().iter())
        .take(usize::from(count))
    {
        *place = *header;
    }
    marks
}

// The tagged packet, two bytes behind it, and some bytes changed.
fn with_changes(changes: &[(usize, u8)]) -> [u8; 60] {
    let mut packet = [0; 60];
    packet[..58].copy_from_slice(&TAGGED);
    for (place, byte) in changes {
        if let Some(at) = packet.get_mut(*place) {
            *at = *byte;
        }
    }
    packet
}

// Loads the sample on a new tap, and reads the worked packets.
fn worked_packets_are_read_by<S: Store + Drop>(
    rt: &impl Abort,
    store: S,
    plan: &[u8],
    chained: bool,
) {
    let mut tap = Tap::new(store);
    assert_eq!(rt; tap.load(&FOUR_NODES, plan), Ok(()));
    for (changes, size, (ending, node, offset), [marks, alone, in_one]) in WORKED {
        let packet = with_changes(changes);
        let mut lent = [NO_MARK; 32];
        let questions = if chained { in_one } else { alone };
        let answer = tap.read(&packet[..size], &mut lent);
        assert_eq!(rt;
            answer,
            told(ending, node, offset, usize::from(marks), questions)
        );
        assert_eq!(rt; lent, first_headers(marks));
    }
}

#[test]
fn worked_packets_are_read(rt: HostRuntime) {
    worked_packets_are_read_by(&rt, Listing::new(), &NO_CHAINS, false);
    worked_packets_are_read_by(&rt, Sliced::new(), &NO_CHAINS, false);
    worked_packets_are_read_by(&rt, fresh_pile(), &NO_CHAINS, false);
    worked_packets_are_read_by(&rt, Listing::new(), &TAG_CHAINED, true);
    worked_packets_are_read_by(&rt, Sliced::new(), &TAG_CHAINED, true);
    worked_packets_are_read_by(&rt, fresh_pile(), &TAG_CHAINED, true);
}

#[test]
fn marks_stand_at_the_front(rt: HostRuntime) {
    let mut tap = Tap::new(Sliced::new());
    let behind = mark(9, 9, 9, 9);
    let mut lent = [behind; 33];
    assert_eq!(rt; tap.load(&FOUR_NODES, &TAG_CHAINED), Ok(()));
    assert_eq!(rt;
        tap.read(&TAGGED, &mut lent),
        told(Ending::Done, 3, 58, 4, 3)
    );
    let [ethernet, tag, ip, tcp, after, ..] = lent;
    assert_eq!(rt; ethernet, mark(0, 0, 0, 14));
    assert_eq!(rt; tag, mark(1, 1, 14, 4));
    assert_eq!(rt; ip, mark(2, 3, 18, 20));
    assert_eq!(rt; tcp, mark(3, 5, 38, 20));
    assert_eq!(rt; after, behind);
}

fn mark(node: u8, kind: u8, offset: u16, length: u16) -> Mark {
    Mark {
        node,
        kind,
        offset,
        length,
    }
}

// The bytes of a packet, the marks lent, and the fault told on a new tap.
const REFUSED: [(usize, usize, PacketFault, u8); 6] = [
    (9601, 33, PacketFault::LongPacket, 10),
    (9601, 31, PacketFault::LongPacket, 10),
    (9600, 31, PacketFault::FewMarks, 11),
    (0, 0, PacketFault::FewMarks, 11),
    (9600, 32, PacketFault::NothingLoaded, 12),
    (0, 33, PacketFault::NothingLoaded, 12),
];

#[test]
fn a_new_tap_refuses_each_read(rt: HostRuntime) {
    let packet = [0; 9601];
    let mut tap = Tap::new(Listing::new());
    let before = tap.report();
    for (size, room, fault, number) in REFUSED {
        let mut lent = [NO_MARK; 33];
        assert_eq!(rt; tap.read(&packet[..size], &mut lent[..room]), Err(fault));
        assert_eq!(rt; Refusal::from(fault), Refusal::new(number, Layer::Read));
    }
    assert_eq!(rt; tap.report(), before);
}

// The sample without the row of node 0 that decides for any other type.
fn without_last_row() -> [u8; 152] {
    let mut file = [0; 152];
    file[..18].copy_from_slice(&[
        4, 0, 0, 18, 0, 36, 0, 54, 0, 36, 0, 90, 0, 36, 0, 126, 0, 26,
    ]);
    file[18..54].copy_from_slice(&FOUR_NODES[18..54]);
    file[54..].copy_from_slice(&FOUR_NODES[64..]);
    file[32] = 2;
    file
}

#[test]
fn a_type_without_a_row_ends_in_15(rt: HostRuntime) {
    let mut tap = Tap::new(Listing::new());
    let mut lent = [NO_MARK; 32];
    assert_eq!(rt; tap.load(&without_last_row(), &TAG_CHAINED), Ok(()));
    let packet = with_changes(&[(12, 0x86), (13, 0xdd)]);
    assert_eq!(rt;
        tap.read(&packet, &mut lent),
        told(Ending::Unfit, 0, 0, 1, 1)
    );
    assert_eq!(rt; lent, first_headers(1));
    assert_eq!(rt; tap.report().endings.unfit, 1);
}

#[test]
fn a_loaded_tap_takes_9600_bytes_and_32_marks(rt: HostRuntime) {
    let packet = [0; 9601];
    let behind = mark(9, 9, 9, 9);
    let mut lent = [behind; 32];
    let mut tap = Tap::new(Sliced::new());
    assert_eq!(rt; tap.load(&FOUR_NODES, &NO_CHAINS), Ok(()));
    assert_eq!(rt; tap.read(&packet, &mut lent), Err(PacketFault::LongPacket));
    assert_eq!(rt;
        tap.read(&packet[..9600], &mut lent[..31]),
        Err(PacketFault::FewMarks)
    );
    assert_eq!(rt; lent, [behind; 32]);
    assert_eq!(rt; tap.report().endings, Endings::default());
    assert_eq!(rt;
        tap.read(&packet[..9600], &mut lent),
        told(Ending::Dropped, 0, 0, 1, 1)
    );
    assert_eq!(rt; tap.report().endings.dropped, 1);
}

#[test]
fn a_refused_load_leaves_what_is_loaded(rt: HostRuntime) {
    let mut tap = Tap::new(Sliced::new());
    let mut lent = [NO_MARK; 32];
    assert_eq!(rt; tap.load(&FOUR_NODES, &NO_CHAINS), Ok(()));
    assert_eq!(rt; tap.load(&FOUR_NODES, &[]).is_err(), true);
    assert_eq!(rt; tap.load(&[], &NO_CHAINS).is_err(), true);
    assert_eq!(rt;
        tap.read(&TAGGED, &mut lent),
        told(Ending::Done, 3, 58, 4, 4)
    );
    assert_eq!(rt; tap.load(&FOUR_NODES, &TAG_CHAINED), Ok(()));
    assert_eq!(rt;
        tap.read(&TAGGED, &mut lent),
        told(Ending::Done, 3, 58, 4, 3)
    );
    assert_eq!(rt; tap.report().endings.done, 2);
}
