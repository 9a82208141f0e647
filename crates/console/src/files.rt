// Files of the system, and the file of a graph.
ghost use Rattle.std.specs.Prelude.{◌≡◌, ℕ, List, IfOk, Ok, take, replicate};
ghost use Rattle.std.specs.Fn.{FnOnceReturnsAtMut};
ghost use Rattle.graphs.specs.View.{graph_view};
ghost use Rattle.graph_reader.specs.Encoding.{encode};

use crate::failure::Failure;
use graph_reader::read::{MOST_BYTES, read_graph};
use graph_writer::copy::copy_graph;
use graph_writer::fault::WriteFault;
use graph_writer::write::write_graph;
use graphs::graph::Graph;
use std::alloc::Global;
use std::fs;
use std::rt::Files;

/// The bytes of a file. Fails, with the file's name, if it cannot be read.
pub fn bytes_of<'a>(
    rt: &(impl Files + AllocGlobal),
    file: &'a str,
) -> Result<Vec<u8>, Failure<'a>> {
    fs::read(rt, file).map_err(|why| Failure::Unread { file, why })
}

/// Makes the bytes the file's. Fails, with the file's name, if it cannot be written.
pub fn put<'a>(rt: &impl Files, file: &'a str, bytes: &[u8]) -> Result<(), Failure<'a>> {
    fs::write(rt, file, bytes).map_err(|why| Failure::Unwritten { file, why })
}

/// The graph of a file. Fails if the file cannot be read; refused by 1 to 6.
pub fn graph_of<'a>(rt: &(impl Files + AllocGlobal), file: &'a str) -> Result<Graph, Failure<'a>> {
    Ok(read_graph(bytes_of(rt, file)?.as_slice())?)
}

/// The bytes of the graph's file. Refused by 1 and 3 to 6, as the file would be.
pub fn file_of<'a>(heap: Global, graph: &Graph) -> Result<Vec<u8>, Failure<'a>>
    ensures { IfOk result (λ bytes. bytes.items ≡ encode (graph_view graph.now)) }
{
    filled(heap, |area| write_graph(graph, area))
}

/// The file again, from the graph that it is read as: the same bytes. Refused by 1 to 6.
pub fn copy_of<'a>(heap: Global, file: &[u8]) -> Result<Vec<u8>, Failure<'a>>
    ensures { IfOk result (λ bytes. bytes.items ≡ file.now) }
{
    filled(heap, |area| copy_graph(file, area))
}

// What a call writes to the front of an area with room for the longest file, up to the length that it
// answers.
fn filled<'a, F: FnOnce(&mut [u8]) -> Result<usize, WriteFault>>(
    heap: Global,
    write: F,
) -> Result<Vec<u8>, Failure<'a>>
    requires { F.IsAlwaysCallable write }
    ensures { IfOk result (λ bytes. (size : ℕ) × (area : List ℕ) × FnOnceReturnsAtMut F.FnOnce write (replicate MOST_BYTES 0) (Ok size) area × (bytes.items ≡ take size area)) }
{
    let mut bytes = vec![in heap; 0u8; MOST_BYTES]?;
    let size = write(bytes.as_mut_slice())?;
    bytes.truncate(size);
    Ok(bytes)
}
