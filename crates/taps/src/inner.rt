// What a tap holds, and how a read is counted.
ghost use Rattle.std.specs.Prelude.{◌≡◌, [], None};
ghost use Rattle.std.specs.Borrow.{sem};
ghost use Rattle.taps.specs.Counts.{Counts, no_counts, report_of, counted};
ghost use Rattle.taps.specs.Held.{report_in, tally_in, LendsTally, with_mark, SameButCounts};

use crate::counts::{Endings, Report, Tally};
use compiler::program::Program;
use headers::kinds::Kind;
use headers::mark::Mark;
use walks::outcome::Ending;

/// A tap's store, what is loaded, and the counts: a tally for each kind, and the endings.
// A tally is lent from a field, which an array of tallies would not allow.
#[derive(Drop)]
pub struct Inner<S> {
    pub store: S,
    pub program: Option<Program>,
    pub ethernet: Tally,
    pub vlan: Tally,
    pub mpls: Tally,
    pub ipv4: Tally,
    pub ipv6: Tally,
    pub tcp: Tally,
    pub udp: Tally,
    pub gre: Tally,
    pub icmp: Tally,
    pub arp: Tally,
    pub other: Tally,
    pub endings: Endings,
}

impl<S> Inner<S> {
    // Nothing loaded, and counts of 0.
    pub(crate) fn new(store: S) -> Inner<S>
        ensures store { result.store ≡ store }
        ensures program { result.program ≡ None }
        ensures counts { report_in result ≡ report_of no_counts }
    {
        let none = Tally::default();
        Inner {
            store,
            program: None,
            ethernet: none,
            vlan: none,
            mpls: none,
            ipv4: none,
            ipv6: none,
            tcp: none,
            udp: none,
            gre: none,
            icmp: none,
            arp: none,
            other: none,
            endings: Endings::default(),
        }
    }

    // The counts as they stand.
    pub(crate) fn report(&self) -> Report
        ensures { result ≡ report_in self.now }
    {
        Report {
            tallies: [
                self.ethernet,
                self.vlan,
                self.mpls,
                self.ipv4,
                self.ipv6,
                self.tcp,
                self.udp,
                self.gre,
                self.icmp,
                self.arp,
                self.other,
            ],
            endings: self.endings,
        }
    }

    // Counts a read by its marks and its ending.
    pub(crate) fn count(&mut self, marks: &[Mark], ending: Ending)
        ensures counts { (c : Counts) → report_in self.old ≡ report_of c → report_in self.new ≡ report_of (counted marks.now ending c) }
        ensures rest { SameButCounts self.old self.new }
    {
        for mark in marks {
            self.raise(*mark);
        }
        self.endings.raise(ending);
    }

    // One header more of the mark's kind. The number of no kind is not counted.
    fn raise(&mut self, mark: Mark)
        ensures { self.new ≡ with_mark mark self.old }
    {
        if let Ok(kind) = Kind::try_from(mark.kind) {
            self.tally_mut(kind).raise(mark.length);
        }
    }

    // The tally of a kind.
    fn tally_mut(&mut self, kind: Kind) -> &mut Tally
        ensures* lends { sem 𝓛 (LendsTally S.row self.entry kind result) }
        ensures value { result.now ≡ tally_in kind self.old }
    {
        match kind {
            Kind::Ethernet => &mut self.ethernet,
            Kind::Vlan => &mut self.vlan,
            Kind::Mpls => &mut self.mpls,
            Kind::Ipv4 => &mut self.ipv4,
            Kind::Ipv6 => &mut self.ipv6,
            Kind::Tcp => &mut self.tcp,
            Kind::Udp => &mut self.udp,
            Kind::Gre => &mut self.gre,
            Kind::Icmp => &mut self.icmp,
            Kind::Arp => &mut self.arp,
            Kind::Other => &mut self.other,
        }
    }
}
