// A parse graph as plain values. Counts, lengths, places and masks are open, so a graph may be
// unsound: writing it as a file has to refuse it as that file would be refused.
// Each array stands with a count: a device has fixed memory and no heap, and the count is open too.
use headers::kinds::Kind;
use patterns::row::{RangeRow, TernaryRow};

/// The most nodes of a graph.
pub const NODES: usize = 32;

/// The most lookup places of a node.
pub const PLACES: usize = 4;

/// The most rows of a node.
pub const ROWS: usize = 16;

/// How long a node's header is: fixed, or base + unit × ((the byte at a place AND mask) shifted
/// right).
#[derive(Clone, Copy, PartialEq, Eq, Debug)]
pub enum Length {
    Fixed(u8),
    Counted {
        place: u8,
        mask: u8,
        shift: u8,
        unit: u8,
        base: u8,
    },
}

/// A node's rows, all of one sort.
// A match on them has an arm for each sort, often with one text: the rows of the arms differ in type.
#[derive(Clone, Copy)]
pub enum Rows {
    Ternary([TernaryRow; ROWS]),
    Range([RangeRow; ROWS]),
}

/// A header of the graph. The first lookup place gives the key's topmost byte.
#[derive(Clone, Copy)]
pub struct Node {
    pub kind: Kind,
    pub length: Length,
    pub place_count: u8,
    pub places: [u8; PLACES],
    pub row_count: u8,
    pub rows: Rows,
}

/// A parse graph; node 0 is the first header.
#[derive(Clone, Copy)]
pub struct Graph {
    pub count: u8,
    pub nodes: [Node; NODES],
}
