// How a walk through a packet ends.
ghost use Rattle.std.specs.Prelude.{◌≡◌};
ghost use Rattle.walks.specs.Outcomes.{ending_number, of_outcome};

use refusals::refusal::{Layer, Refusal};

/// How a walk ends.
#[derive(Clone, Copy, PartialEq, Eq, Debug)]
pub enum Ending {
    /// The last header is marked, and the payload begins behind it.
    Done,
    /// A byte that is read, or the header's end, lies outside the packet.
    Cut,
    /// The header is shorter than its kind's minimum.
    Short,
    /// No row of the node fits.
    Unfit,
    /// The deciding row drops the packet.
    Dropped,
}

/// The ending's number: 0 for done, 13 to 16 for the others.
impl From<Ending> for u8 {
    ghost from_gives = { λ e r. r ≡ ending_number e };

    fn from(ending: Ending) -> u8 {
        match ending {
            Ending::Done => 0,
            Ending::Cut => 13,
            Ending::Short => 14,
            Ending::Unfit => 15,
            Ending::Dropped => 16,
        }
    }
}

/// How and where a walk ended: for done the last marked node and the payload's offset, else the
/// node and offset of the header at which it stopped.
#[derive(Clone, Copy, PartialEq, Eq, Debug)]
pub struct Outcome {
    pub ending: Ending,
    pub node: u8,
    pub offset: u16,
}

impl Outcome {
    /// The refusal of the layer 'walk' that the outcome is, at node and offset. None for done.
    pub fn refusal(&self) -> Option<Refusal>
        ensures { result ≡ of_outcome self.now }
    {
        match self.ending {
            Ending::Done => None,
            ending => {
                let node = u16::from(self.node);
                Some(Refusal::at(u8::from(ending), Layer::Walk, node, self.offset))
            }
        }
    }
}
