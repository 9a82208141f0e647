ghost use Rattle.std.specs.Prelude.{◌≡◌};
ghost use Rattle.headers.specs.Faults.{of_part};
ghost use Rattle.headers.specs.declared.faults.PartFault.TheVariants.{UnknownKind as OfKind};

use crate::kinds::UnknownKind;
use refusals::refusal::{Layer, Refusal};

/// Why a part of a packet is not handed out.
#[derive(Clone, Copy, PartialEq, Eq, Debug)]
pub enum PartFault {
    /// The mark's kind is over 10.
    UnknownKind { kind: u8 },
    /// Some of the field's bytes lie outside the packet.
    FieldOutside,
    /// The payload would begin behind the packet's end.
    PayloadOutside,
}

impl From<UnknownKind> for PartFault {
    ghost from_gives = { λ unknown fault. fault ≡ OfKind unknown.number };

    fn from(unknown: UnknownKind) -> PartFault {
        PartFault::UnknownKind {
            kind: unknown.number,
        }
    }
}

/// The fault as a refusal: number 17, of the layer that was asked.
impl From<PartFault> for Refusal {
    ghost from_gives = { λ fault refusal. refusal ≡ of_part fault };

    fn from(fault: PartFault) -> Refusal {
        let layer = match fault {
            PartFault::UnknownKind { .. } | PartFault::FieldOutside => Layer::Field,
            PartFault::PayloadOutside => Layer::Payload,
        };
        Refusal::new(17, layer)
    }
}
