// One turn: the question that it asks, and the headers that its answer passes.
ghost use Rattle.std.specs.Prelude.{◌≡◌, ℕ, ◌+◌, min, List, ◌∷◌, ◌++◌, length, take, nat_le};
ghost use Rattle.refusals.specs.Searching.{fault_of};
ghost use Rattle.plans.specs.Chains.{nodes_of};
ghost use Rattle.walks.specs.Outcomes.{outcome};
ghost use Rattle.walks.specs.Bytes.{spelled_in};
ghost use Rattle.walks.specs.Rows.{key_width, question};
ghost use Rattle.walks.specs.Turning.{refusal_where};
ghost use Rattle.readers.specs.Headers.{mark_by, bytes_at, end_of, marks_by, marks_left};
ghost use Rattle.readers.specs.Asking.{look_of, wide, turn_asks, Passes};

use crate::behind::{Behind, end_of, head_of, mark_at};
use crate::front::put;
use crate::key::Key;
use compiler::program::{CHAIN_BASE, Head, Program};
use graphs::named::named;
use headers::mark::Mark;
use stores::question::Question;
use stores::state::State;
use walker::header::HeaderAt;
use walker::step::{Step, follow, told};
use walks::action::Action;
use walks::outcome::{Ending, Outcome};

/// The question of a turn, and the nodes behind the turn's own that it is over: none where it is over
/// the node alone.
#[derive(Clone, Copy)]
pub(crate) struct Asked<'a> {
    pub(crate) question: Question,
    pub(crate) behind: &'a [u8],
}

/// What an answer comes to: how many headers are marked by then, and where the target leads behind
/// the last of them.
#[derive(Clone, Copy)]
pub(crate) struct Passed {
    pub(crate) marks: usize,
    pub(crate) step: Step,
}

/// The header that a turn begins at: of a node of the program, at an offset of the packet.
#[derive(Clone, Copy)]
pub(crate) struct Turn<'a> {
    pub(crate) program: &'a Program,
    pub(crate) packet: &'a [u8],
    pub(crate) node: u8,
    pub(crate) at: u32,
}

impl<'a> Turn<'a> {
    /// What the turn asks: where the node has a chain and the packet the window's bytes left, one
    /// question over both; otherwise, after the three checks, one over the node alone. Refused as the
    /// checks refuse its header.
    pub(crate) fn question(&self) -> Result<Asked<'a>, Outcome>
        ensures { look_of result
            ≡ turn_asks self.now.program.now self.now.packet.now self.now.node self.now.at }
    {
        let head = head_of(self.program, self.node);
        if self.in_one_look(head) {
            let state = CHAIN_BASE.wrapping_add(self.node);
            let all = head.lookups.as_slice();
            return Ok(self.asked(state, all, head.chain.named_nodes()));
        }
        match self.check(head) {
            Err(ending) => Err(self.stopped(ending)),
            Ok(()) => Ok(self.asked(self.node, head.own_lookups(), &[])),
        }
    }

    // The three checks of the header, by what the program says of its node.
    fn check(&self, head: &Head) -> Result<(), Ending>
        ensures { fault_of result ≡ refusal_where (nat_le (self.now.at + head.now.needs) (length self.now.packet.now)) self.now.packet.now self.now.at head.now.minimum head.now.length }
    {
        if !self.has(head.needs) {
            return Err(Ending::Cut);
        }
        self.header().check_size(head.minimum, head.length)?;
        Ok(())
    }

    // The packet from the turn's offset on.
    fn header(&self) -> HeaderAt<'a>
        ensures packet { result.packet.now ≡ self.now.packet.now }
        ensures at { result.at ≡ self.now.at }
    {
        HeaderAt {
            packet: self.packet,
            at: self.at,
        }
    }

    // Whether the packet has so many bytes left.
    fn has(&self, bytes: u16) -> bool
        ensures { result ≡ nat_le (self.now.at + bytes) (length self.now.packet.now) }
    {
        self.at as usize + usize::from(bytes) <= self.packet.len()
    }

    /// The outcome of a reading that stops at the header.
    pub(crate) fn stopped(&self, ending: Ending) -> Outcome
        ensures { result ≡ outcome ending self.now.node (min self.now.at 65535) }
    {
        Outcome {
            ending,
            node: self.node,
            offset: told(self.at),
        }
    }

    // Whether the node has a chain and the packet the window's bytes left.
    fn in_one_look(&self, head: &Head) -> bool
        ensures { result ≡ wide (nodes_of head.now.chain) self.now.at head.now.window (length self.now.packet.now) }
    {
        !head.chain.named_nodes().is_empty() && self.has(head.window)
    }

    // The question for a state, by the bytes at lookup places, over the node and those behind it. States
    // are counted modulo 64.
    fn asked(&self, state: u8, lookups: &[u16], behind: &'a [u8]) -> Asked<'a>
        ensures question { result.question ≡ question state (bytes_at self.now.packet.now self.now.at lookups.now) }
        ensures behind { result.behind.now ≡ behind.now }
    {
        let key = self.key(lookups);
        let state = State::new(state % 64).unwrap();
        Asked {
            question: Question { state, key },
            behind,
        }
    }

    // The bytes at lookup places in order, then zeros.
    fn key(&self, lookups: &[u16]) -> u64
        ensures { result ≡ spelled_in key_width (bytes_at self.now.packet.now self.now.at lookups.now) }
    {
        let header = self.header();
        let mut key = Key::new();
        for place in lookups {
            key.push(header.byte(*place));
        }
        key.number
    }

    /// Marks the headers that an action passes, that of the node and as many of those behind it: the
    /// marks go behind the first `count`. Then the target leads on behind the last of them.
    pub(crate) fn pass(
        &self,
        behind: &[u8],
        action: Action,
        marks: &mut [Mark],
        mut count: usize,
    ) -> Passed
        ensures { Passes self.now (take action.beyond behind.now) action.target marks.old count marks.new result }
    {
        let mut last = self.mark();
        count = put(marks, count, last);
        for mark in self.behind(last, named(behind, action.beyond)) {
            count = put(marks, count, mark);
            last = mark;
        }
        Passed {
            marks: count,
            step: follow(last, action.target),
        }
    }

    // The header's mark.
    fn mark(&self) -> Mark
        ensures { result ≡ mark_by self.now.program.now self.now.packet.now self.now.node self.now.at }
    {
        mark_at(self.program, self.packet, self.node, self.at)
    }

    // The headers of the nodes behind a marked one.
    fn behind<'b>(&self, mark: Mark, nodes: &'b [u8]) -> Behind<'a, 'b>
        ensures { marks_left result ≡ marks_by self.now.program.now self.now.packet.now nodes.now (end_of mark) }
    {
        Behind {
            program: self.program,
            packet: self.packet,
            nodes,
            at: end_of(mark),
        }
    }
}
