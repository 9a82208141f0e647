// The names of the kinds.
ghost use Rattle.std.specs.Prelude.{Some};
ghost use Rattle.headers.specs.Names.{kind_name};

use crate::kinds::Kind;
use std::fmt;

impl fmt::Display for Kind {
    ghost output = { λ kind. Some (kind_name kind) };

    fn fmt<W: fmt::Write>(&self, f: &mut fmt::Formatter<W>) -> fmt::Result {
        f.pad(match self {
            Kind::Ethernet => "Ethernet",
            Kind::Vlan => "VLAN",
            Kind::Mpls => "MPLS",
            Kind::Ipv4 => "IPv4",
            Kind::Ipv6 => "IPv6",
            Kind::Tcp => "TCP",
            Kind::Udp => "UDP",
            Kind::Gre => "GRE",
            Kind::Icmp => "ICMP",
            Kind::Arp => "ARP",
            Kind::Other => "other",
        })
    }
}
