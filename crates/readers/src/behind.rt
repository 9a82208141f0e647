// The headers of nodes one right behind the other, by what a program says of the nodes.
ghost use Rattle.std.specs.Prelude.{◌≡◌, ◌+◌};
ghost use Rattle.std.specs.Iterator.{YieldsFirst, item_count};
ghost use Rattle.compiler.specs.Programs.{head_at};
ghost use Rattle.readers.specs.Headers.{mark_by, end_of, marks_left};

use compiler::program::{Head, Program};
use headers::mark::Mark;
use walker::header::HeaderAt;
use walker::step::mark_of;

// The head of a node; the blank one where the program has no such node. It is lent, since a copy would
// cost more than what is looked at.
pub(crate) fn head_of(program: &Program, node: u8) -> &Head
    ensures { result.now ≡ head_at program.now node }
{
    program
        .heads
        .as_slice()
        .get(usize::from(node))
        .unwrap_or(&program.blank)
}

// The mark of a node's header at an offset.
pub(crate) fn mark_at(program: &Program, packet: &[u8], node: u8, at: u32) -> Mark
    ensures { result ≡ mark_by program.now packet.now node at }
{
    let head = head_of(program, node);
    let header = HeaderAt { packet, at };
    mark_of(node, head.kind, at, header.measure(head.length))
}

// The offset behind a marked header.
pub(crate) fn end_of(mark: Mark) -> u32
    ensures { result ≡ end_of mark }
{
    u32::from(mark.offset) + u32::from(mark.length)
}

// The headers of nodes, each right behind the one before, from an offset on. Each comes as its mark.
#[derive(Drop)]
pub struct Behind<'a, 'b> {
    pub program: &'a Program,
    pub packet: &'a [u8],
    pub nodes: &'b [u8],
    pub at: u32,
}

impl Iterator for Behind<'_, '_> {
    type Item = Mark;

    ghost next_gives = { YieldsFirst marks_left };

    ghost remaining = { item_count marks_left };

    fn next(&mut self) -> Option<Mark> {
        let (node, rest) = self.nodes.split_first()?;
        let mark = mark_at(self.program, self.packet, *node, self.at);
        self.nodes = rest;
        self.at = end_of(mark);
        Some(mark)
    }
}
