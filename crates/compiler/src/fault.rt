// What a load is refused for.
ghost use Rattle.std.specs.Prelude.{◌≡◌};
ghost use Rattle.compiler.specs.Faults.{of_load, from_read};
ghost use Rattle.compiler.specs.declared.fault.LoadFault.TheVariants.{Plan, Store};

use graph_reader::fault::{FileFault, ReadFault};
use graphs::fault::GraphFault;
use plans::fault::PlanFault;
use refusals::refusal::{Layer, Refusal};
use stores::fault::StoreFault;

/// Why a graph file and a plan are not loaded: a fault of the file, of its graph or of the plan, more
/// rows than there may be, or the store's own.
#[derive(Clone, Copy, PartialEq, Eq, Debug)]
pub enum LoadFault {
    File(FileFault),
    Graph(GraphFault),
    Plan(PlanFault),
    TooMany { rows: u16 },
    Store(StoreFault),
}

/// The fault's number, layer and place.
impl From<LoadFault> for Refusal {
    ghost from_gives = { λ fault refusal. refusal ≡ of_load fault };

    fn from(fault: LoadFault) -> Refusal {
        match fault {
            LoadFault::File(fault) => Refusal::from(fault),
            LoadFault::Graph(fault) => Refusal::from(fault),
            LoadFault::Plan(fault) => Refusal::from(fault),
            LoadFault::TooMany { rows } => Refusal::at(9, Layer::Store, rows, 0),
            LoadFault::Store(fault) => Refusal::from(fault),
        }
    }
}

// As other faults take a reading's, each into variants of its own.
impl From<ReadFault> for LoadFault {
    ghost from_gives = { λ e r. r ≡ from_read e };

    fn from(fault: ReadFault) -> LoadFault {
        match fault {
            ReadFault::File(fault) => LoadFault::File(fault),
            ReadFault::Graph(fault) => LoadFault::Graph(fault),
        }
    }
}

impl From<PlanFault> for LoadFault {
    ghost from_gives = { λ e r. r ≡ Plan e };

    fn from(why: PlanFault) -> LoadFault {
        LoadFault::Plan(why)
    }
}

impl From<StoreFault> for LoadFault {
    ghost from_gives = { λ e r. r ≡ Store e };

    fn from(why: StoreFault) -> LoadFault {
        LoadFault::Store(why)
    }
}
