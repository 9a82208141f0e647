// What a graph file is refused for.
ghost use Rattle.std.specs.Prelude.{◌≡◌};
ghost use Rattle.graph_reader.specs.Faults.{of_file, of_read};
ghost use Rattle.graph_reader.specs.declared.fault.ReadFault.TheVariants.{File, Graph};

use graphs::fault::GraphFault;
use refusals::refusal::{Layer, Refusal};

/// The file's size, node count or byte 1; a pair; a byte of a node's record.
#[derive(Clone, Copy, PartialEq, Eq, Debug)]
pub enum FileFault {
    Shape,
    Pair { pair: u8 },
    Byte { node: u8, at: u16 },
}

/// The fault's number, layer and place.
impl From<FileFault> for Refusal {
    ghost from_gives = { λ fault refusal. refusal ≡ of_file fault };

    fn from(fault: FileFault) -> Refusal {
        match fault {
            FileFault::Shape => Refusal::new(1, Layer::File),
            FileFault::Pair { pair } => Refusal::at(2, Layer::File, u16::from(pair), 0),
            FileFault::Byte { node, at } => Refusal::at(3, Layer::File, u16::from(node), at),
        }
    }
}

/// Why a graph file is not read: a fault of the file, or of the graph that it says.
#[derive(Clone, Copy, PartialEq, Eq, Debug)]
pub enum ReadFault {
    File(FileFault),
    Graph(GraphFault),
}

/// The fault's number, layer and place.
impl From<ReadFault> for Refusal {
    ghost from_gives = { λ fault refusal. refusal ≡ of_read fault };

    fn from(fault: ReadFault) -> Refusal {
        match fault {
            ReadFault::File(fault) => Refusal::from(fault),
            ReadFault::Graph(fault) => Refusal::from(fault),
        }
    }
}

impl From<FileFault> for ReadFault {
    ghost from_gives = { λ e r. r ≡ File e };

    fn from(fault: FileFault) -> ReadFault {
        ReadFault::File(fault)
    }
}

impl From<GraphFault> for ReadFault {
    ghost from_gives = { λ e r. r ≡ Graph e };

    fn from(fault: GraphFault) -> ReadFault {
        ReadFault::Graph(fault)
    }
}
