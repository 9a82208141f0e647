// What a walk is refused for.
ghost use Rattle.std.specs.Prelude.{◌≡◌};
ghost use Rattle.walker.specs.Faults.{of_walk};
ghost use Rattle.walker.specs.declared.fault.WalkFault.TheVariants.{Graph};

use graphs::fault::GraphFault;
use refusals::refusal::{Layer, Refusal};

/// Why a packet is not walked: a fault of the graph, a packet longer than any that is walked, or
/// fewer marks than a walk may need.
#[derive(Clone, Copy, PartialEq, Eq, Debug)]
pub enum WalkFault {
    Graph(GraphFault),
    LongPacket,
    FewMarks,
}

/// The fault's number, layer and place.
impl From<WalkFault> for Refusal {
    ghost from_gives = { λ fault refusal. refusal ≡ of_walk fault };

    fn from(fault: WalkFault) -> Refusal {
        match fault {
            WalkFault::Graph(fault) => Refusal::from(fault),
            WalkFault::LongPacket => Refusal::new(10, Layer::Read),
            WalkFault::FewMarks => Refusal::new(11, Layer::Read),
        }
    }
}

impl From<GraphFault> for WalkFault {
    ghost from_gives = { λ e r. r ≡ Graph e };

    fn from(why: GraphFault) -> WalkFault {
        WalkFault::Graph(why)
    }
}
