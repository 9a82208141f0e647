// What a plan is refused for.
ghost use Rattle.std.specs.Prelude.{◌≡◌};
ghost use Rattle.plans.specs.Faults.{of_plan};

use refusals::refusal::{Layer, Refusal};

/// The plan's size or a node's four bytes are wrong; a chain breaks a rule.
#[derive(Clone, Copy, PartialEq, Eq, Debug)]
pub enum PlanFault {
    Shape { node: u8 },
    Rule { node: u8 },
}

/// The fault's number, layer and place.
impl From<PlanFault> for Refusal {
    ghost from_gives = { λ fault refusal. refusal ≡ of_plan fault };

    fn from(fault: PlanFault) -> Refusal {
        match fault {
            PlanFault::Shape { node } => Refusal::at(7, Layer::Plan, u16::from(node), 0),
            PlanFault::Rule { node } => Refusal::at(8, Layer::Plan, u16::from(node), 0),
        }
    }
}
