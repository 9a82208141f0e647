// Captures of packets: how many records there are, and how they end.
use captures::fault::CaptureFault;
use captures::format::{HEADER, open};
use captures::survey::{Survey, count_records};

// Little-endian, microseconds, Ethernet. The first packet has 14 bytes, and its record begins at 24; the
// second has 3, and its record begins at 54.
const CAPTURE: [u8; 73] = [
    0xd4, 0xc3, 0xb2, 0xa1, 2, 0, 4, 0, 0, 0, 0, 0, 0, 0, 0, 0, 0xff, 0xff, 0, 0, 1, 0, 0, 0, //
    0x00, 0x10, 0x5e, 0x5f, 0x20, 0xa1, 0x07, 0x00, 14, 0, 0, 0, 60, 0, 0, 0, //
    0xff, 0xff, 0xff, 0xff, 0xff, 0xff, 0x02, 0x00, 0x00, 0x00, 0x00, 0x01, 0x08, 0x06, //
    0x00, 0x10, 0x5e, 0x5f, 0x21, 0xa1, 0x07, 0x00, 3, 0, 0, 0, 3, 0, 0, 0, //
    0xaa, 0xbb, 0xcc,
];

// How many bytes of the capture are there, how many whole records, and the fault that ends them.
const SURVEYS: [(usize, usize, Option<CaptureFault>); 5] = [
    (73, 2, None),
    (
        72,
        1,
        Some(CaptureFault::PacketCut {
            offset: 54,
            captured: 3,
            there: 2,
        }),
    ),
    (69, 1, Some(CaptureFault::HeaderCut { offset: 54 })),
    (54, 1, None),
    (24, 0, None),
];

#[test]
fn records_are_counted(rt: HostRuntime) {
    for (size, records, fault) in SURVEYS {
        let file = CAPTURE.get(..size).unwrap_or(&[]);
        assert_eq!(rt;
            open(file).map(|format| count_records(file, format, HEADER)),
            Ok(Survey { records, fault })
        );
    }
}
