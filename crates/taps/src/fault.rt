// What a read is refused for.
ghost use Rattle.std.specs.Prelude.{◌≡◌};
ghost use Rattle.taps.specs.Faults.{of_packet};

use refusals::refusal::{Layer, Refusal};

/// Why a packet is not read: it is longer than any that is read, there are fewer marks than a read
/// may need, or nothing is loaded.
#[derive(Clone, Copy, PartialEq, Eq, Debug)]
pub enum PacketFault {
    LongPacket,
    FewMarks,
    NothingLoaded,
}

/// The fault's number and layer. It has no place.
impl From<PacketFault> for Refusal {
    ghost from_gives = { λ fault refusal. refusal ≡ of_packet fault };

    fn from(fault: PacketFault) -> Refusal {
        match fault {
            PacketFault::LongPacket => Refusal::new(10, Layer::Read),
            PacketFault::FewMarks => Refusal::new(11, Layer::Read),
            PacketFault::NothingLoaded => Refusal::new(12, Layer::Read),
        }
    }
}
