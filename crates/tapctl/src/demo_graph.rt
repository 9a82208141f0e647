// The graph of the demonstration.
use graphs::graph::{Graph, Length, NODES, Node, PLACES, ROWS, Rows};
use headers::kinds::Kind;
use patterns::row::{Target, TernaryRow};

/// Ethernet, a VLAN tag, IPv4 and TCP, each one where the one before it leads.
pub fn ethernet_to_tcp() -> Graph {
    let mut nodes = [node(Kind::Other, Length::Fixed(1), &[], &[]); NODES];
    nodes[0] = node(
        Kind::Ethernet,
        Length::Fixed(14),
        &[12, 13],
        &[
            ether_type(0x8100, Target::Node(1)),
            ether_type(0x0800, Target::Node(2)),
            otherwise(Target::Dropped),
        ],
    );
    nodes[1] = node(
        Kind::Vlan,
        Length::Fixed(4),
        &[2, 3],
        &[ether_type(0x0800, Target::Node(2)), otherwise(Target::Done)],
    );
    nodes[2] = node(
        Kind::Ipv4,
        words(0, 0x0F, 0),
        &[6, 7, 9],
        &[whole_packet_of(6, Target::Node(3)), otherwise(Target::Done)],
    );
    nodes[3] = node(
        Kind::Tcp,
        words(12, 0xF0, 4),
        &[],
        &[otherwise(Target::Done)],
    );
    Graph { count: 4, nodes }
}

fn node(kind: Kind, length: Length, lookup: &[u8], first: &[TernaryRow]) -> Node {
    let mut places = [0; PLACES];
    let place_count = lookup.len().min(PLACES);
    places[..place_count].copy_from_slice(&lookup[..place_count]);
    let mut rows = [otherwise(Target::Done); ROWS];
    let row_count = first.len().min(ROWS);
    rows[..row_count].copy_from_slice(&first[..row_count]);
    Node {
        kind,
        length,
        place_count: place_count as u8,
        places,
        row_count: row_count as u8,
        rows: Rows::Ternary(rows),
    }
}

// A header's length in words of 4 bytes, counted by the bits of one of its bytes.
fn words(place: u8, mask: u8, shift: u8) -> Length {
    Length::Counted {
        place,
        mask,
        shift,
        unit: 4,
        base: 0,
    }
}

// The row for an EtherType, looked up in two bytes.
fn ether_type(number: u16, target: Target) -> TernaryRow {
    TernaryRow {
        value: u32::from(number) << 16,
        mask: 0xFFFF_0000,
        target,
    }
}

// The row for an IPv4 protocol where the fragment offset is 0, looked up in bytes 6, 7 and 9.
fn whole_packet_of(protocol: u8, target: Target) -> TernaryRow {
    TernaryRow {
        value: u32::from(protocol) << 8,
        mask: 0x1FFF_FF00,
        target,
    }
}

// The row that every key fits.
fn otherwise(target: Target) -> TernaryRow {
    TernaryRow {
        value: 0,
        mask: 0,
        target,
    }
}
