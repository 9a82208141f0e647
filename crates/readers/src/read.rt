// A packet read by questions to a store.
ghost use Rattle.std.specs.Prelude.{◌≡◌, ℕ, ◌≤◌, List, length};
ghost use Rattle.headers.specs.declared.kinds.Kind.{Kind};
ghost use Rattle.graphs.specs.View.{NodeView};
ghost use Rattle.stores.specs.Meaning.{answer, asked, asked_each};
ghost use Rattle.walks.specs.Rows.{Plan, action_at};
ghost use Rattle.walks.specs.Turns.{settled};
ghost use Rattle.compiler.specs.Held.{held};
ghost use Rattle.readers.specs.Fronts.{over};
ghost use Rattle.readers.specs.Tracing.{trace_by, reading_of};
ghost use Rattle.readers.specs.Reading.{Programmed, ReadAs};

use crate::turn::Turn;
use compiler::program::Program;
use headers::mark::Mark;
use stores::question::Question;
use stores::store::Store;
use walker::step::Step;
use walks::action::Action;
use walks::outcome::{Ending, Outcome};

/// How a reading ended, how many headers it marked, and how many questions it put.
#[derive(Clone, Copy, PartialEq, Eq, Debug)]
pub struct Reading {
    pub outcome: Outcome,
    pub marks: usize,
    pub questions: u8,
}

impl Reading {
    // A reading that ended so.
    fn new(outcome: Outcome, marks: usize, questions: u8) -> Reading
        ensures { result ≡ record { outcome = outcome; marks = marks; questions = questions } }
    {
        Reading {
            outcome,
            marks,
            questions,
        }
    }
}

/// Reads a packet turn by turn, from node 0 at offset 0 on, by questions to the store, and writes each
/// header's mark in order to the front of `marks`; those behind stay. Nothing is refused: any program
/// and any store are read by, in at most as many turns as the program has nodes. A mark that has no
/// place is left out, and an offset over 65,535 is told as 65,535. Where the program stands for a graph
/// and a plan and the store holds their rows, a packet of at most 9,600 bytes is read as the plain walk
/// walks it, into 32 marks or more (`read`).
pub fn read<S: Store>(
    program: &Program,
    store: &mut S,
    packet: &[u8],
    marks: &mut [Mark],
) -> Reading
    ensures is { let t = trace_by program.now (S.Store.meaning store.old).rows packet.now in
        result ≡ reading_of t (length marks.old) }
    ensures marks { let t = trace_by program.now (S.Store.meaning store.old).rows packet.now in
        marks.new ≡ over t.marks marks.old }
    ensures asked { let t = trace_by program.now (S.Store.meaning store.old).rows packet.now in
        S.Store.meaning store.new ≡ asked_each (S.Store.meaning store.old) t.questions }
    ensures turns { result.questions ≤ length (held program.now.heads) }
    ensures read { let t = trace_by program.now (S.Store.meaning store.old).rows packet.now in
        (minimum : Kind → ℕ) (g : List NodeView) (chain : Plan) →
        Programmed minimum g chain program.now (S.Store.meaning store.old).rows →
        length packet.now ≤ 9600 → 32 ≤ length marks.old →
        ReadAs minimum g chain packet.now marks.old marks.new t.questions result }
{
    let reader = Reader { program, packet };
    reader.read(store, marks)
}

// A packet, and what it is read by beside a store.
#[derive(Clone, Copy)]
struct Reader<'a> {
    program: &'a Program,
    packet: &'a [u8],
}

impl<'a> Reader<'a> {
    // Reads the packet.
    fn read<S: Store>(&self, store: &mut S, marks: &mut [Mark]) -> Reading
        ensures is { let t = trace_by self.now.program.now (S.Store.meaning store.old).rows self.now.packet.now in
            result ≡ reading_of t (length marks.old) }
        ensures marks { let t = trace_by self.now.program.now (S.Store.meaning store.old).rows self.now.packet.now in
            marks.new ≡ over t.marks marks.old }
        ensures asked { let t = trace_by self.now.program.now (S.Store.meaning store.old).rows self.now.packet.now in
            S.Store.meaning store.new ≡ asked_each (S.Store.meaning store.old) t.questions }
        ensures turns { result.questions ≤ length (held self.now.program.now.heads) }
    {
        let mut node = 0;
        let mut at = 0;
        // The marks go to the front of the caller's slice, and a device has no heap: so a count.
        let mut count = 0;
        let turns = self.program.heads.as_slice().len() as u8;
        for questions in 0..turns {
            let turn = self.turn(node, at);
            let asked = match turn.question() {
                Ok(asked) => asked,
                Err(outcome) => return Reading::new(outcome, count, questions),
            };
            let action = ask(self.program, store, &asked.question);
            let passed = turn.pass(asked.behind, action, marks, count);
            count = passed.marks;
            match passed.step {
                Step::Stop(outcome) | Step::Last { outcome, .. } => {
                    return Reading::new(outcome, count, questions + 1);
                }
                Step::On {
                    node: next,
                    at: past,
                    ..
                } => {
                    node = next;
                    at = past;
                }
            }
        }
        // Each target of a graph is a later node, so only a made-up program comes here.
        Reading::new(self.turn(node, at).stopped(Ending::Done), count, turns)
    }

    // The turn that begins at a node and an offset.
    fn turn(&self, node: u8, at: u32) -> Turn<'a>
        ensures { result ≡ record { program = self.now.program; packet = self.now.packet; node = node; at = at } }
    {
        Turn {
            program: self.program,
            packet: self.packet,
            node,
            at,
        }
    }
}

// Puts a question: the action beside the first row that fits. That of no fitting row passes no header
// beyond the first and leads nowhere.
fn ask<S: Store>(program: &Program, store: &mut S, question: &Question) -> Action
    ensures answered { result ≡ settled (action_at (held program.now.actions) (answer (S.Store.meaning store.old).rows question.now)) }
    ensures after { S.Store.meaning store.new ≡ asked (S.Store.meaning store.old) question.now }
{
    let none = Action {
        beyond: 0,
        target: None,
    };
    match store.ask(question) {
        Some(place) => program
            .actions
            .as_slice()
            .get(usize::from(place))
            .copied()
            .unwrap_or(none),
        None => none,
    }
}
