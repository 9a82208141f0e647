ghost use Rattle.std.specs.Prelude.{◌≡◌};
ghost use Rattle.headers.specs.Kinds.{kind_number, kind_told};

/// A kind of header.
#[derive(Clone, Copy, PartialEq, Eq, Debug)]
pub enum Kind {
    Ethernet,
    Vlan,
    Mpls,
    Ipv4,
    Ipv6,
    Tcp,
    Udp,
    Gre,
    Icmp,
    Arp,
    Other,
}

/// A number that no kind has: it is over 10.
#[derive(Clone, Copy, PartialEq, Eq, Debug)]
pub struct UnknownKind {
    pub number: u8,
}

/// The kind's number, 0 to 10.
impl From<Kind> for u8 {
    ghost from_gives = { λ kind number. number ≡ kind_number kind };

    fn from(kind: Kind) -> u8 {
        match kind {
            Kind::Ethernet => 0,
            Kind::Vlan => 1,
            Kind::Mpls => 2,
            Kind::Ipv4 => 3,
            Kind::Ipv6 => 4,
            Kind::Tcp => 5,
            Kind::Udp => 6,
            Kind::Gre => 7,
            Kind::Icmp => 8,
            Kind::Arp => 9,
            Kind::Other => 10,
        }
    }
}

/// The kind that has the number. None has a number over 10.
impl TryFrom<u8> for Kind {
    type Error = UnknownKind;

    ghost try_from_gives = { λ number told. told ≡ kind_told number };

    fn try_from(number: u8) -> Result<Kind, UnknownKind> {
        match number {
            0 => Ok(Kind::Ethernet),
            1 => Ok(Kind::Vlan),
            2 => Ok(Kind::Mpls),
            3 => Ok(Kind::Ipv4),
            4 => Ok(Kind::Ipv6),
            5 => Ok(Kind::Tcp),
            6 => Ok(Kind::Udp),
            7 => Ok(Kind::Gre),
            8 => Ok(Kind::Icmp),
            9 => Ok(Kind::Arp),
            10 => Ok(Kind::Other),
            _ => Err(UnknownKind { number }),
        }
    }
}
