// How far a node's rows are done.
use crate::few::Few;
use graphs::graph::Node;
use patterns::block::Block;
use patterns::row::Target;

// The most blocks of a range.
pub const BLOCKS: usize = 30;

// The node's rows from `row` on are not begun; of the range before it, the blocks from `next` on are
// left. They are told by their places: the blocks lie in the cursor itself, as a device has no heap,
// and the rows are of one of two types, so that no one slice could hold what is left of them.
#[derive(Drop)]
pub struct Cursor<'a> {
    pub node: &'a Node,
    pub row: usize,
    pub blocks: Few<Block, BLOCKS>,
    pub next: usize,
    pub target: Target,
}
