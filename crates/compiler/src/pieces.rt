// The ternary rows of a node, one after the other: ranges are split.
ghost use Rattle.std.specs.Prelude.{◌≡◌, [], drop};
ghost use Rattle.std.specs.Iterator.{YieldsFirst, item_count};
ghost use Rattle.patterns.specs.Splitting.{split_of};
ghost use Rattle.compiler.specs.Held.{held};
ghost use Rattle.compiler.specs.Pieces.{block_as, head_of, tail_of, ranges_left, left_in};

use crate::cursor::{BLOCKS, Cursor};
use crate::few::Few;
use graphs::graph::{Node, Rows};
use graphs::named::named;
use patterns::block::Block;
use patterns::pattern::Pattern;
use patterns::row::{RangeRow, Target, TernaryRow};
use patterns::span::Span;
use patterns::split::split;

const BLANK: Block = Block { value: 0, mask: 0 };

impl<'a> Cursor<'a> {
    // Nothing of the node is begun.
    pub(crate) fn new(node: &'a Node) -> Cursor<'a>
        ensures node { result.node.now ≡ node.now }
        ensures row { result.row ≡ 0 }
        ensures blocks { held result.blocks ≡ [] }
    {
        Cursor {
            node,
            row: 0,
            blocks: Few::new(BLANK),
            next: 0,
            target: Target::Done,
        }
    }

    fn next_ternary(&mut self, rows: &[TernaryRow]) -> Option<TernaryRow>
        ensures first { result ≡ head_of (drop self.old.row rows.now) }
        ensures rest { drop self.new.row rows.now ≡ tail_of (drop self.old.row rows.now) }
        ensures node { self.new.node ≡ self.old.node }
    {
        let row = *rows.get(self.row)?;
        self.row += 1;
        Some(row)
    }

    fn next_block(&mut self, rows: &[RangeRow]) -> Option<TernaryRow>
        ensures first { result ≡ head_of (ranges_left rows.now self.old) }
        ensures rest { ranges_left rows.now self.new ≡ tail_of (ranges_left rows.now self.old) }
        ensures node { self.new.node ≡ self.old.node }
    {
        loop {
            if let Some(block) = self.blocks.as_slice().get(self.next) {
                let piece = block_piece(*block, self.target);
                self.next += 1;
                return Some(piece);
            }
            let row = *rows.get(self.row)?;
            self.row += 1;
            self.open(row);
        }
    }

    // Goes on to the blocks of a range.
    fn open(&mut self, row: RangeRow)
        ensures blocks { held self.new.blocks ≡ split_of row.low row.high }
        ensures next { self.new.next ≡ 0 }
        ensures target { self.new.target ≡ row.target }
        ensures row { self.new.row ≡ self.old.row }
        ensures node { self.new.node ≡ self.old.node }
    {
        self.next = 0;
        self.target = row.target;
        self.blocks = blocks_of(row);
    }
}

// Each ternary row is over the node's lookup bytes, the first topmost: a row, or a block of a range.
impl Iterator for Cursor<'_> {
    type Item = TernaryRow;

    ghost next_gives = { YieldsFirst left_in };

    ghost remaining = { item_count left_in };

    fn next(&mut self) -> Option<TernaryRow> {
        let node = self.node;
        match &node.rows {
            Rows::Ternary(rows) => self.next_ternary(named(rows, node.row_count)),
            Rows::Range(rows) => self.next_block(named(rows, node.row_count)),
        }
    }
}

// The blocks of a range; none where low is above high.
fn blocks_of(row: RangeRow) -> Few<Block, BLOCKS>
    ensures { held result ≡ split_of row.low row.high }
{
    let Some(span) = Span::make(&row) else {
        return Few::new(BLANK);
    };
    let mut blocks = [BLANK; BLOCKS];
    let count = split(&span, &mut blocks);
    Few::counted(blocks, count)
}

// A block over the first two lookup bytes.
fn block_piece(block: Block, target: Target) -> TernaryRow
    ensures { result ≡ block_as target block }
{
    TernaryRow {
        value: u32::from(block.value) << 16,
        mask: u32::from(block.mask) << 16,
        target,
    }
}
