// What a tap counts. Each count stops at 4,294,967,295.
ghost use Rattle.std.specs.Prelude.{◌≡◌};
ghost use Rattle.taps.specs.Counts.{raised, one_more};

use walks::outcome::Ending;

/// The headers of a kind, and their bytes.
#[derive(Clone, Copy, PartialEq, Eq, Debug, Default)]
pub struct Tally {
    pub headers: u32,
    pub bytes: u32,
}

/// How many reads ended in each way.
#[derive(Clone, Copy, PartialEq, Eq, Debug, Default)]
pub struct Endings {
    pub done: u32,
    pub cut: u32,
    pub short: u32,
    pub unfit: u32,
    pub dropped: u32,
}

/// All counts of a tap: the tallies, each at its kind's number, and the endings.
#[derive(Clone, Copy, PartialEq, Eq, Debug)]
pub struct Report {
    pub tallies: [Tally; 11],
    pub endings: Endings,
}

impl Tally {
    // One header more, of so many bytes.
    pub(crate) fn raise(&mut self, length: u16)
        ensures { self.new ≡ raised length self.old }
    {
        self.headers = self.headers.saturating_add(1);
        self.bytes = self.bytes.saturating_add(u32::from(length));
    }
}

impl Endings {
    // One read more that ended so.
    pub(crate) fn raise(&mut self, ending: Ending)
        ensures { self.new ≡ one_more ending self.old }
    {
        match ending {
            Ending::Done => self.done = self.done.saturating_add(1),
            Ending::Cut => self.cut = self.cut.saturating_add(1),
            Ending::Short => self.short = self.short.saturating_add(1),
            Ending::Unfit => self.unfit = self.unfit.saturating_add(1),
            Ending::Dropped => self.dropped = self.dropped.saturating_add(1),
        }
    }
}

#[test]
fn counts_stop_at_the_most(rt: HostRuntime) {
    let mut tally = Tally {
        headers: 4_294_967_294,
        bytes: 4_294_967_275,
    };
    let most = Tally {
        headers: 4_294_967_295,
        bytes: 4_294_967_295,
    };
    tally.raise(20);
    assert_eq!(rt; tally, most);
    tally.raise(1);
    assert_eq!(rt; tally, most);
    let mut endings = Endings {
        done: 4_294_967_295,
        ..Endings::default()
    };
    let before = endings;
    endings.raise(Ending::Done);
    assert_eq!(rt; endings, before);
    endings.raise(Ending::Cut);
    assert_eq!(rt; endings.cut, 1);
}
