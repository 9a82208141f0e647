// Kinds, fields and payloads.
use headers::faults::PartFault;
use headers::kinds::{Kind, UnknownKind};
use headers::mark::Mark;
use headers::part::{field, payload};
use headers::table::{FieldPlace, KindTable};
use refusals::refusal::{Layer, Refusal};

// Number, kind, fewest bytes, number of fields, and each field's offset and length. The number stands
// beside an array: a slice for each kind was tried, and the proof that a place lies in it comes to no
// end.
const KINDS: [(u8, Kind, u8, usize, [(u8, u8); 4]); 11] = [
    (0, Kind::Ethernet, 14, 3, [(0, 6), (6, 6), (12, 2), (0, 0)]),
    (1, Kind::Vlan, 4, 2, [(0, 2), (2, 2), (0, 0), (0, 0)]),
    (2, Kind::Mpls, 4, 1, [(0, 4), (0, 0), (0, 0), (0, 0)]),
    (3, Kind::Ipv4, 20, 4, [(1, 1), (6, 1), (8, 2), (12, 8)]),
    (4, Kind::Ipv6, 40, 4, [(0, 4), (6, 2), (8, 16), (24, 16)]),
    (5, Kind::Tcp, 20, 3, [(0, 2), (2, 2), (13, 1), (0, 0)]),
    (6, Kind::Udp, 8, 2, [(0, 2), (2, 2), (0, 0), (0, 0)]),
    (7, Kind::Gre, 4, 2, [(0, 2), (2, 2), (0, 0), (0, 0)]),
    (8, Kind::Icmp, 8, 2, [(0, 1), (1, 1), (0, 0), (0, 0)]),
    (9, Kind::Arp, 28, 3, [(6, 2), (14, 4), (24, 4), (0, 0)]),
    (10, Kind::Other, 1, 0, [(0, 0), (0, 0), (0, 0), (0, 0)]),
];

#[test]
fn kinds_are_as_the_standards_say(rt: HostRuntime) {
    let table = KindTable::standard();
    for (number, kind, minimum, count, places) in KINDS {
        assert_eq!(rt; u8::from(kind), number);
        assert_eq!(rt; Kind::try_from(number), Ok(kind));
        assert_eq!(rt; table.minimum(kind), minimum);
        // `take(count)`, before `enumerate` or after it, was tried: its proof does not close.
        for (i, (offset, length)) in places.iter().enumerate() {
            if i < count {
                let place = FieldPlace {
                    offset: *offset,
                    length: *length,
                };
                assert_eq!(rt; table.field(kind, i), Some(place));
            }
        }
        assert_eq!(rt; table.field(kind, count), None);
    }
    assert_eq!(rt; Kind::try_from(11), Err(UnknownKind { number: 11 }));
}

// No two bytes are the same, so a part's first byte tells its place: C is at 12, Q at 26, o at 50.
const PACKET: &[u8; 51] = b"0123456789ABCDEFGHIJKLMNOPQRSTUVWXYZabcdefghijklmno";

// Kind, offset and field number, then the field's first byte and length, if it is there.
const FIELDS: [(u8, u16, usize, Result<Option<(u8, usize)>, PartFault>); 8] = [
    (0, 0, 2, Ok(Some((b'C', 2)))),
    (3, 14, 3, Ok(Some((b'Q', 8)))),
    (3, 49, 0, Ok(Some((b'o', 1)))),
    (3, 50, 0, Err(PartFault::FieldOutside)),
    (3, 65535, 4, Ok(None)),
    (10, 0, 0, Ok(None)),
    (11, 0, 0, Err(PartFault::UnknownKind { kind: 11 })),
    (255, 65535, 9, Err(PartFault::UnknownKind { kind: 255 })),
];

fn first_and_length(part: &[u8]) -> (u8, usize) {
    (part.first().copied().unwrap_or(0), part.len())
}

#[test]
fn fields_are_parts_of_the_packet(rt: HostRuntime) {
    for (kind, offset, number, expected) in FIELDS {
        let mark = Mark {
            node: 255,
            kind,
            offset,
            length: 0,
        };
        let found = field(PACKET, &mark, number).map(|part| part.map(first_and_length));
        assert_eq!(rt; found, expected);
    }
}

// A place, then the payload's first byte (0 if it has none) and length.
const PAYLOADS: [(usize, Result<(u8, usize), PartFault>); 4] = [
    (0, Ok((b'0', 51))),
    (50, Ok((b'o', 1))),
    (51, Ok((0, 0))),
    (52, Err(PartFault::PayloadOutside)),
];

#[test]
fn payloads_run_to_the_end(rt: HostRuntime) {
    for (from, expected) in PAYLOADS {
        let found = payload(PACKET, from).map(first_and_length);
        assert_eq!(rt; found, expected);
    }
}

const REFUSALS: [(PartFault, Layer); 3] = [
    (PartFault::UnknownKind { kind: 11 }, Layer::Field),
    (PartFault::FieldOutside, Layer::Field),
    (PartFault::PayloadOutside, Layer::Payload),
];

#[test]
fn parts_are_refused_by_17(rt: HostRuntime) {
    for (fault, layer) in REFUSALS {
        let refusal = Refusal::new(17, layer);
        assert_eq!(rt; Refusal::from(fault), refusal);
    }
}
