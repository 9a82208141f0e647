// What a graph that is to be written is refused for.
ghost use Rattle.std.specs.Prelude.{◌≡◌};
ghost use Rattle.graph_writer.specs.Faults.{of_write, from_read};
ghost use Rattle.graph_writer.specs.declared.fault.WriteFault.TheVariants.{File, Graph};

use graph_reader::fault::{FileFault, ReadFault};
use graphs::fault::GraphFault;
use refusals::refusal::{Layer, Refusal};

/// Why a graph is not written: a fault that its file would have, a fault of the graph, or an area
/// too short for the longest file.
#[derive(Clone, Copy, PartialEq, Eq, Debug)]
pub enum WriteFault {
    File(FileFault),
    Graph(GraphFault),
    Area,
}

/// The fault's number, layer and place.
impl From<WriteFault> for Refusal {
    ghost from_gives = { λ fault refusal. refusal ≡ of_write fault };

    fn from(fault: WriteFault) -> Refusal {
        match fault {
            WriteFault::File(fault) => Refusal::from(fault),
            WriteFault::Graph(fault) => Refusal::from(fault),
            WriteFault::Area => Refusal::new(11, Layer::Writing),
        }
    }
}

impl From<FileFault> for WriteFault {
    ghost from_gives = { λ e r. r ≡ File e };

    fn from(fault: FileFault) -> WriteFault {
        WriteFault::File(fault)
    }
}

impl From<GraphFault> for WriteFault {
    ghost from_gives = { λ e r. r ≡ Graph e };

    fn from(fault: GraphFault) -> WriteFault {
        WriteFault::Graph(fault)
    }
}

// As other faults take a reading's, each into variants of its own.
impl From<ReadFault> for WriteFault {
    ghost from_gives = { λ e r. r ≡ from_read e };

    fn from(fault: ReadFault) -> WriteFault {
        match fault {
            ReadFault::File(fault) => WriteFault::File(fault),
            ReadFault::Graph(fault) => WriteFault::Graph(fault),
        }
    }
}
