// Plain rows: the numbers as they were written down, and where a fitting key leads. Nothing is checked
// yet.

/// Where a row leads: to the node of a number, to the end of the headers, or to a dropped packet.
#[derive(Clone, Copy, PartialEq, Eq, Debug)]
pub enum Target {
    Node(u8),
    Done,
    Dropped,
}

/// A row that looks at the bits of a 32-bit key under a mask. It makes a pattern if no value bit lies
/// outside the mask.
#[derive(Clone, Copy, PartialEq, Eq, Debug)]
pub struct TernaryRow {
    pub value: u32,
    pub mask: u32,
    pub target: Target,
}

/// A row for the 16-bit keys from low to high. It makes a pattern if low is not above high.
#[derive(Clone, Copy, PartialEq, Eq, Debug)]
pub struct RangeRow {
    pub low: u16,
    pub high: u16,
    pub target: Target,
}
