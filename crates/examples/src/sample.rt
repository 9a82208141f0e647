// Two graph files, byte by byte.
ghost use Rattle.std.specs.Prelude.{◌≡◌};
ghost use Rattle.graph_reader.specs.Encoding.{encode};
ghost use Rattle.walks.specs.Samples.{four_nodes};

/// The file of the four-node sample: the encoding of its graph.
pub fn four_nodes() -> [u8; 162]
    ensures { result ≡ encode four_nodes }
{
    FOUR_NODES
}

/// Ethernet, VLAN, IPv4 and TCP: the count, four pairs, four records.
pub const FOUR_NODES: [u8; 162] = [
    4, 0, 0, 0x12, 0, 0x2e, 0, 0x40, 0, 0x24, 0, 0x64, 0, 0x24, 0, 0x88, 0, 0x1a,
    // Ethernet, 14 bytes, places 12 and 13
    0, 0, 14, 0, 0, 0, 0, 0, 2, 12, 13, 0, 0, 0, 3, 0,
    // 0x8100 to node 1
    0x81, 0, 0, 0, 0xff, 0xff, 0, 0, 0, 1,
    // 0x0800 to node 2
    8, 0, 0, 0, 0xff, 0xff, 0, 0, 0, 2,
    // any other dropped
    0, 0, 0, 0, 0, 0, 0, 0, 2, 0,
    // VLAN, 4 bytes, places 2 and 3
    1, 0, 4, 0, 0, 0, 0, 0, 2, 2, 3, 0, 0, 0, 2, 0,
    // 0x0800 to node 2
    8, 0, 0, 0, 0xff, 0xff, 0, 0, 0, 2,
    // any other done
    0, 0, 0, 0, 0, 0, 0, 0, 1, 0,
    // IPv4, 4 x (byte 0 & 0x0f), places 6, 7 and 9
    3, 1, 0, 15, 0, 4, 0, 0, 3, 6, 7, 9, 0, 0, 2, 0,
    // no fragment offset, protocol 6, to node 3
    0, 0, 6, 0, 0x1f, 0xff, 0xff, 0, 0, 3,
    // any other done
    0, 0, 0, 0, 0, 0, 0, 0, 1, 0,
    // TCP, 4 x ((byte 12 & 0xf0) >> 4), no places
    5, 1, 12, 0xf0, 4, 4, 0, 0, 0, 0, 0, 0, 0, 0, 1, 0,
    // done
    0, 0, 0, 0, 0, 0, 0, 0, 1, 0,
];

/// Ethernet with ranges over the type: a length up to 0x05ff is done, a type from 0x0800 on dropped.
pub const RANGES: [u8; 42] = [
    1, 0, 0, 6, 0, 36, 0, 0, 14, 0, 0, 0, 0, 0, 2, 12, 13, 0, 0, 1, 2, 0, 0, 0, 5, 0xff, 0, 0, 0,
    0, 1, 0, 8, 0, 0xff, 0xff, 0, 0, 0, 0, 2, 0,
];
