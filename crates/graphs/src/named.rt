// What the counts of a graph name.
ghost use Rattle.std.specs.Prelude.{◌≡◌, ◌<◌, ◌≤◌, length, take};
ghost use Rattle.graphs.specs.View.{node_view, row_count};

use crate::graph::{Graph, Node, Rows};

/// The elements that a count names: so many from the front, all of them if there are fewer.
pub fn named<T>(all: &[T], count: u8) -> &[T]
    ensures is { result.now ≡ take count all.now }
    ensures few { length result.now < 256 }
    ensures within { length result.now ≤ length all.now }
    ensures full { count ≤ length all.now → length result.now ≡ count }
{
    &all[0..all.len().min(usize::from(count))]
}

impl Graph {
    /// The nodes that the graph's count names.
    pub fn named_nodes(&self) -> &[Node]
        ensures is { result.now ≡ take self.now.count self.now.nodes }
        ensures few { length result.now ≤ 32 }
        ensures full { self.now.count ≤ 32 → length result.now ≡ self.now.count }
    {
        named(&self.nodes, self.count)
    }
}

impl Node {
    /// How many rows the node's count names.
    pub fn row_total(&self) -> usize
        ensures is { result ≡ row_count (node_view self.now).rows }
        ensures few { result ≤ 16 }
        ensures full { self.now.row_count ≤ 16 → result ≡ self.now.row_count }
    {
        match &self.rows {
            Rows::Ternary(rows) => named(rows, self.row_count).len(),
            Rows::Range(rows) => named(rows, self.row_count).len(),
        }
    }
}
