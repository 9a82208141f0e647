// Reading a graph file and writing its graph again.
ghost use Rattle.std.specs.Prelude.{◌≡◌, length};
ghost use Rattle.refusals.specs.Searching.{unless_fault};
ghost use Rattle.headers.specs.Table.{minimum_in, standard_table};
ghost use Rattle.graph_writer.specs.Writing.{area_after};
ghost use Rattle.graph_writer.specs.Copying.{copy_fault};

use crate::fault::WriteFault;
use crate::write::write_graph;
use graph_reader::read::read_graph;

/// Reads a graph file and writes its graph to the front of an area: the same bytes, and the area
/// behind them stays. Refused as reading the file is, then by 11 if the area has not room for the
/// longest file; a refused call changes nothing.
pub fn copy_graph(file: &[u8], area: &mut [u8]) -> Result<usize, WriteFault>
    ensures is { result ≡ unless_fault (copy_fault (minimum_in standard_table) file.now (length area.old)) (length file.now) }
    ensures area { area.new ≡ area_after (copy_fault (minimum_in standard_table) file.now (length area.old)) file.now area.old }
{
    let graph = read_graph(file)?;
    write_graph(&graph, area)
}
