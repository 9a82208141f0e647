// Writing a graph as a file.
ghost use Rattle.std.specs.Prelude.{◌≡◌, ◌<◌, length, OnOk};
ghost use Rattle.refusals.specs.Searching.{fault_of, unless_fault};
ghost use Rattle.headers.specs.Table.{minimum_in, standard_table};
ghost use Rattle.graphs.specs.View.{node_view, graph_view};
ghost use Rattle.graph_reader.specs.Encoding.{record_of, encode};
ghost use Rattle.refusals.specs.Least.{Answers};
ghost use Rattle.graph_writer.specs.Faults.{of_write};
ghost use Rattle.graph_writer.specs.Refusals.{WriteApplies, ReadsBack, FaultAsRead, AnswersAsRead};
ghost use Rattle.graph_writer.specs.Writing.{record_for, node_byte_fault, records_fault, count_fault, write_fault, area_after, Standing, Writable};

use crate::fault::WriteFault;
use crate::put::{put_file, put_record};
use graph_reader::fault::FileFault;
use graph_reader::read::MOST_BYTES;
use graph_reader::record::check_record;
use graphs::check::check_graph;
use graphs::graph::{Graph, Node};
use headers::table::KindTable;

/// Writes a graph's file to the front of an area, and answers the file's length. Refused by 1 and 3
/// to 6 as the file would be (where the counts make one, as reading the graph's own file), then by
/// 11 if the area has not room for the longest file; a refused call changes nothing, and the area
/// behind the file stays. The file reads back as the same graph.
pub fn write_graph(graph: &Graph, area: &mut [u8]) -> Result<usize, WriteFault>
    ensures is { result ≡ unless_fault (write_fault (minimum_in standard_table) graph.now (length area.old)) (length (encode (graph_view graph.now))) }
    ensures area { area.new ≡ area_after (write_fault (minimum_in standard_table) graph.now (length area.old)) (encode (graph_view graph.now)) area.old }
    ensures answers { Answers of_write (WriteApplies (minimum_in standard_table) graph.now (length area.old)) (λ _. ReadsBack (minimum_in standard_table) (graph_view graph.now)) result }
    ensures as_read { AnswersAsRead (minimum_in standard_table) graph.now (length area.old) result }
{
    write_graph_by(&KindTable::standard(), graph, area)
}

/// Writes a graph's file, its lengths checked by a given table of kinds.
pub fn write_graph_by(
    table: &KindTable,
    graph: &Graph,
    area: &mut [u8],
) -> Result<usize, WriteFault>
    ensures is { result ≡ unless_fault (write_fault (minimum_in table.now) graph.now (length area.old)) (length (encode (graph_view graph.now))) }
    ensures area { area.new ≡ area_after (write_fault (minimum_in table.now) graph.now (length area.old)) (encode (graph_view graph.now)) area.old }
    ensures answers { Answers of_write (WriteApplies (minimum_in table.now) graph.now (length area.old)) (λ _. ReadsBack (minimum_in table.now) (graph_view graph.now)) result }
    ensures as_read { AnswersAsRead (minimum_in table.now) graph.now (length area.old) result }
{
    first_fault(table, graph, area.len())?;
    Ok(put_file(graph.named_nodes(), area))
}

// What the graph is refused for, in the order of the numbers.
fn first_fault(table: &KindTable, graph: &Graph, room: usize) -> Result<(), WriteFault>
    ensures is { fault_of result ≡ write_fault (minimum_in table.now) graph.now room }
    ensures writable { OnOk result (Writable graph.now room) }
    ensures as_read { FaultAsRead (minimum_in table.now) graph.now room (fault_of result) }
{
    check_count(graph)?;
    check_records(graph.named_nodes())?;
    check_graph(table, graph)?;
    if room < MOST_BYTES {
        return Err(WriteFault::Area);
    }
    Ok(())
}

fn check_count(graph: &Graph) -> Result<(), FileFault>
    ensures { fault_of result ≡ count_fault graph.now }
{
    if graph.count < 1 || graph.count > 32 {
        return Err(FileFault::Shape);
    }
    Ok(())
}

// Number 3 of the nodes in their order.
fn check_records(nodes: &[Node]) -> Result<(), FileFault>
    requires { length nodes.now < 256 }
    ensures is { fault_of result ≡ records_fault nodes.now }
    ensures stand { OnOk result (Standing nodes.now) }
{
    for (n, node) in nodes.iter().enumerate() {
        check_node(n as u8, node)?;
    }
    Ok(())
}

// Number 3 of a node: the first byte of its record that is not right.
fn check_node(n: u8, node: &Node) -> Result<(), FileFault>
    ensures is { fault_of result ≡ node_byte_fault n node.now }
    ensures stands { OnOk result (record_for node.now ≡ record_of (node_view node.now)) }
{
    let mut buffer = [0u8; 176];
    let size = put_record(node, &mut buffer);
    check_record(n, &buffer[..size])
}
