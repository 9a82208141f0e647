// Two taps side by side: other stores and other plans, and the same reports.
use crate::reads::{NO_CHAINS, TAG_CHAINED, TAGGED, headers};
use examples::sample::FOUR_NODES;
use headers::mark::Mark;
use runs::calls::{Answer, Call, Reply};
use runs::run::run;
use runs::side::side_by_side;
use slices::pile::fresh_pile;
use stores::listing::Listing;
use taps::fault::PacketFault;
use taps::tap::Tap;

// A load of the sample with a plan, behind a read and a load that are refused; then reads of the packet
// with a refused load between them, and a report.
fn calls<'a>(plan: &'a [u8], file: &'a [u8], packet: &'a [u8]) -> [Call<'a>; 8] {
    let room = 40;
    let refused = Call::Load { file: plan, plan };
    [
        Call::Read { packet, room },
        refused,
        Call::Load { file, plan },
        Call::Read { packet, room },
        refused,
        Call::Read { packet, room: 31 },
        Call::Read { packet, room },
        Call::Report,
    ]
}

// What stands in a place before a call is made.
const BEHIND: Mark = Mark {
    node: 9,
    kind: 9,
    offset: 9,
    length: 9,
};

fn blank() -> Reply<40> {
    Reply {
        answer: Answer::Load(Ok(())),
        marks: [BEHIND; 40],
    }
}

// How many questions a reply tells.
fn questions(reply: &Reply<40>) -> Option<u8> {
    match reply.answer {
        Answer::Read(answer) => answer.ok().map(|reading| reading.questions),
        Answer::Load(_) | Answer::Report(_) => None,
    }
}

#[test]
fn taps_agree_on_reports_and_reads(rt: HostRuntime) {
    let blank = blank();
    let mut alone = [blank; 9];
    let mut in_one = [blank; 7];
    let left = calls(&NO_CHAINS, &FOUR_NODES, &TAGGED);
    let right = calls(&TAG_CHAINED, &FOUR_NODES, &TAGGED);
    let both = side_by_side(
        Listing::new(),
        fresh_pile(),
        &left,
        &right,
        &mut alone,
        &mut in_one,
    );
    assert_eq!(rt; both.left_made, 8);
    assert_eq!(rt; both.right_made, 7);
    let refused = Answer::Read(Err(PacketFault::NothingLoaded));
    assert_eq!(rt; alone[0].answer, refused);
    assert_eq!(rt; in_one[0].answer, refused);
    assert_eq!(rt; accepted(&alone), [false, true, false]);
    assert_eq!(rt; accepted(&in_one), [false, true, false]);
    assert_eq!(rt; questions(&alone[3]), Some(4));
    assert_eq!(rt; questions(&in_one[3]), Some(3));
    assert_eq!(rt; questions(&alone[6]), Some(4));
    assert_eq!(rt; questions(&in_one[6]), Some(3));
    assert_eq!(rt; alone[5], in_one[5]);
    assert_eq!(rt; alone[7].answer, Answer::Report(both.left.report()));
    assert_eq!(rt; both.left.report(), both.right.report());
    assert_eq!(rt; both.left.report().endings.done, 2);
    assert_eq!(rt; alone[8], blank);
}

// Reads are lent the 40 marks of their places: four are written, and those behind them stay, as all do
// where a call loads, reports or is refused.
#[test]
fn marks_behind_stay_in_their_places(rt: HostRuntime) {
    let mut replies = [blank(); 8];
    let calls = calls(&NO_CHAINS, &FOUR_NODES, &TAGGED);
    let mut tap = Tap::new(Listing::new());
    assert_eq!(rt; run(&mut tap, &calls, &mut replies), 8);
    let mut read = [BEHIND; 40];
    read[..4].copy_from_slice(&headers());
    for place in [3, 6] {
        assert_eq!(rt; replies.get(place).map(|reply| reply.marks), Some(read));
    }
    for place in [0, 1, 2, 4, 5, 7] {
        assert_eq!(rt;
            replies.get(place).map(|reply| reply.marks),
            Some([BEHIND; 40])
        );
    }
}

// Whether each of the three loads was accepted.
fn accepted(replies: &[Reply<40>]) -> [bool; 3] {
    [1, 2, 4].map(|place| {
        replies.get(place).map(|reply| reply.answer) == Some(Answer::Load(Ok(())))
    })
}
