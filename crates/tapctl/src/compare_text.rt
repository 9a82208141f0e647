// Two taps side by side, as a person reads them: one graph, two plans, the same packets.
use crate::packets::Packets;
use console::failure::Failure;
use readers::read::Reading;
use refusals::refusal::Refusal;
use runs::calls::{Answer, Call, Reply};
use runs::side::side_by_side;
use std::alloc::Global;
use std::io;
use stores::listing::Listing;
use taps::fault::PacketFault;
use taps::tap::NO_MARK;
use walker::walk::MOST_MARKS;

/// A graph file, the plans of two taps, and the packets that both read: a capture, or one packet.
#[derive(Clone, Copy)]
pub struct Comparison<'a> {
    pub file: &'a [u8],
    pub left: &'a [u8],
    pub right: &'a [u8],
    pub packets: &'a [u8],
}

// What stands in the place of a reply before its call is made.
const BLANK: Reply<32> = Reply {
    answer: Answer::Load(Ok(())),
    marks: [NO_MARK; MOST_MARKS],
};

// The questions that two taps put, one beside the other.
#[derive(Clone, Copy)]
struct Questions {
    left: u64,
    right: u64,
}

impl<'a> Comparison<'a> {
    /// Loads the graph with each plan into a tap of its own, reads the packets by both, and prints what
    /// each packet is read as and how many questions each tap puts. Refused by 1 to 9 as the first load
    /// that is refused. Fails where the capture is cut or not of Ethernet, once what came before is
    /// printed.
    pub fn print<'f>(&self, rt: &(impl Print + AllocGlobal)) -> Result<(), Failure<'f>> {
        let heap = rt.alloc();
        let packets = Packets::of(self.packets)?;
        let list = packets.list(heap)?;
        let left = self.calls(heap, self.left, list.as_slice())?;
        let right = self.calls(heap, self.right, list.as_slice())?;
        let mut left_replies = vec![in heap; BLANK; left.len()]?;
        let mut right_replies = vec![in heap; BLANK; right.len()]?;
        let _taps = side_by_side(
            Listing::new(),
            Listing::new(),
            left.as_slice(),
            right.as_slice(),
            left_replies.as_mut_slice(),
            right_replies.as_mut_slice(),
        );
        print_replies(rt, left_replies.as_slice(), right_replies.as_slice())?;
        packets.whole()
    }

    // The calls of a tap: the load, a read for each packet, lent as many marks as it may need, and a report.
    fn calls<'f>(
        &self,
        heap: Global,
        plan: &'a [u8],
        packets: &[&'a [u8]],
    ) -> Result<Vec<Call<'a>>, Failure<'f>> {
        let mut calls = Vec::new(heap);
        let file = self.file;
        calls.push(Call::Load { file, plan })?;
        for packet in packets {
            calls.push(Call::Read {
                packet: *packet,
                room: MOST_MARKS,
            })?;
        }
        calls.push(Call::Report)?;
        Ok(calls)
    }
}

// Prints the reads of both taps, packet by packet. Refused as the first load that is refused.
fn print_replies<'f>(
    rt: &impl Print,
    left: &[Reply<32>],
    right: &[Reply<32>],
) -> Result<(), Failure<'f>> {
    check_load(left)?;
    check_load(right)?;
    println!(rt; "packet  headers  questions of both  read as")?;
    let mut all = Questions { left: 0, right: 0 };
    let mut number: usize = 0;
    for (left, right) in left.iter().zip(right.iter()) {
        if let (Answer::Read(left), Answer::Read(right)) = (&left.answer, &right.answer) {
            let asked = print_read(rt, number, left, right)?;
            all.left = all.left.saturating_add(asked.left);
            all.right = all.right.saturating_add(asked.right);
            number = number.saturating_add(1);
        }
    }
    Ok(print_total(rt, all)?)
}

// Refused if the load was.
fn check_load<'f>(replies: &[Reply<32>]) -> Result<(), Failure<'f>> {
    match replies.first() {
        Some(
            Reply {
                answer: Answer::Load(Err(fault)),
                ..
            },
        ) => Err(Failure::Refused(Refusal::from(*fault))),
        _ => Ok(()),
    }
}

// Prints what a packet was read as by both taps, and answers the questions of each.
fn print_read(
    rt: &impl Print,
    number: usize,
    left: &Result<Reading, PacketFault>,
    right: &Result<Reading, PacketFault>,
) -> io::Result<Questions> {
    let mut asked = Questions { left: 0, right: 0 };
    match (left, right) {
        (Ok(left), Ok(right)) => {
            asked.left = u64::from(left.questions);
            asked.right = u64::from(right.questions);
            let Questions { left: l, right: r } = asked;
            let headers = left.marks;
            print!(rt; "{number:>6}  {headers:>7}  {l:>8} {r:>8}  ")?;
            if left.outcome != right.outcome || left.marks != right.marks {
                println!(rt; "not the same by both")?;
            } else {
                print_ending(rt, left)?;
            }
        }
        (Err(fault), _) | (_, Err(fault)) => {
            let refusal = Refusal::from(*fault);
            println!(rt; "{number:>6}  refused: {refusal}")?;
        }
    }
    Ok(asked)
}

fn print_ending(rt: &impl Print, reading: &Reading) -> io::Result<()> {
    match reading.outcome.refusal() {
        Some(refusal) => println!(rt; "{refusal}"),
        None => {
            let offset = reading.outcome.offset;
            println!(rt; "done: payload at {offset}")
        }
    }
}

// Prints the questions of all reads, and how many in a hundred the second tap saves.
fn print_total(rt: &impl Print, all: Questions) -> io::Result<()> {
    let Questions { left, right } = all;
    let saved = left
        .saturating_sub(right)
        .saturating_mul(100)
        .checked_div(left)
        .unwrap_or(0);
    println!(rt; "questions: {left} by the first plan, {right} by the second: {saved} in 100 saved")
}
