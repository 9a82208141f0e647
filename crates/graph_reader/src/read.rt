// Reading a graph file.
ghost use Rattle.std.specs.Prelude.{◌≡◌, IfOk};
ghost use Rattle.refusals.specs.Least.{Answers};
ghost use Rattle.headers.specs.Table.{minimum_in, standard_table};
ghost use Rattle.graphs.specs.View.{Counts};
ghost use Rattle.graph_reader.specs.Encoding.{encode};
ghost use Rattle.graph_reader.specs.Faults.{of_read};
ghost use Rattle.graph_reader.specs.Refusals.{Applies};
ghost use Rattle.graph_reader.specs.Reading.{seen, reading};

use crate::decode::graph_in;
use crate::fault::ReadFault;
use crate::pairs::{check_bytes, check_pairs, check_shape};
use graphs::check::check_graph;
use graphs::graph::Graph;
use headers::table::KindTable;

/// The most bytes of a graph file: 32 nodes of 16 rows each.
pub const MOST_BYTES: usize = 5762;

/// The graph of a file: the one whose encoding the file is. Refused by 1 to 6, the lowest number
/// first, then the lowest node, then the lowest row or byte. Free: what stands behind the counts of
/// the graph; of all calls only those that hand nodes out as they are, `Graph::node`,
/// `Graph::named_nodes` and `plans::path::Path::here`, show any of it.
pub fn read_graph(file: &[u8]) -> Result<Graph, ReadFault>
    ensures is { seen result ≡ reading (minimum_in standard_table) file.now }
    ensures answers { Answers of_read (Applies (minimum_in standard_table) file.now) (λ nodes. encode nodes ≡ file.now) (seen result) }
    ensures counts { IfOk result Counts }
{
    read_graph_by(&KindTable::standard(), file)
}

/// The graph of a file, its lengths checked by a given table of kinds; the same is free.
pub fn read_graph_by(table: &KindTable, file: &[u8]) -> Result<Graph, ReadFault>
    ensures is { seen result ≡ reading (minimum_in table.now) file.now }
    ensures answers { Answers of_read (Applies (minimum_in table.now) file.now) (λ nodes. encode nodes ≡ file.now) (seen result) }
    ensures counts { IfOk result Counts }
{
    check_shape(file)?;
    check_pairs(file)?;
    check_bytes(file)?;
    let graph = graph_in(file);
    check_graph(table, &graph)?;
    Ok(graph)
}
