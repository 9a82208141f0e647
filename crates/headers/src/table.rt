ghost use Rattle.std.specs.Prelude.{◌≡◌};
ghost use Rattle.std.specs.List.{slice_get};
ghost use Rattle.headers.specs.Table.{row_in, minimum_in, field_in, standard_row, standard_table, FieldsLieInside};

use crate::kinds::Kind;

/// Where a field lies in its header, in bytes.
#[derive(Clone, Copy, PartialEq, Eq, Debug)]
pub struct FieldPlace {
    pub offset: u8,
    pub length: u8,
}

/// What is known of a kind: the fewest bytes of its header, and its fields.
/// Only the first `field_count` places count; the others are 0/0 in the built-in table.
// An array with its count: the count is open, since a caller may bring a table of its own.
#[derive(Clone, Copy)]
pub struct KindRow {
    pub minimum: u8,
    pub field_count: u8,
    pub fields: [FieldPlace; 4],
}

/// A row for each kind, at the kind's number.
#[derive(Clone, Copy)]
pub struct KindTable {
    pub rows: [KindRow; 11],
}

const UNUSED: FieldPlace = FieldPlace {
    offset: 0,
    length: 0,
};

// The field that begins at the offset and has the length.
fn place(offset: u8, length: u8) -> FieldPlace
    ensures { result ≡ record { offset = offset; length = length } }
{
    FieldPlace { offset, length }
}

// A row with what it is given.
fn kind_row(minimum: u8, field_count: u8, fields: [FieldPlace; 4]) -> KindRow
    ensures { result ≡ record { minimum = minimum; field_count = field_count; fields = fields } }
{
    KindRow {
        minimum,
        field_count,
        fields,
    }
}

// The kind's row of the built-in table.
fn standard_row(kind: Kind) -> KindRow
    ensures { result ≡ standard_row kind }
{
    match kind {
        Kind::Ethernet => kind_row(14, 3, [place(0, 6), place(6, 6), place(12, 2), UNUSED]),
        Kind::Vlan => kind_row(4, 2, [place(0, 2), place(2, 2), UNUSED, UNUSED]),
        Kind::Mpls => kind_row(4, 1, [place(0, 4), UNUSED, UNUSED, UNUSED]),
        Kind::Ipv4 => kind_row(20, 4, [place(1, 1), place(6, 1), place(8, 2), place(12, 8)]),
        Kind::Ipv6 => kind_row(
            40,
            4,
            [place(0, 4), place(6, 2), place(8, 16), place(24, 16)],
        ),
        Kind::Tcp => kind_row(20, 3, [place(0, 2), place(2, 2), place(13, 1), UNUSED]),
        Kind::Udp => kind_row(8, 2, [place(0, 2), place(2, 2), UNUSED, UNUSED]),
        Kind::Gre => kind_row(4, 2, [place(0, 2), place(2, 2), UNUSED, UNUSED]),
        Kind::Icmp => kind_row(8, 2, [place(0, 1), place(1, 1), UNUSED, UNUSED]),
        Kind::Arp => kind_row(28, 3, [place(6, 2), place(14, 4), place(24, 4), UNUSED]),
        Kind::Other => kind_row(1, 0, [UNUSED; 4]),
    }
}

impl KindTable {
    /// The built-in table, as the standards say.
    pub fn standard() -> KindTable
        ensures is { result ≡ standard_table }
        ensures fields { FieldsLieInside result }
    {
        KindTable {
            rows: [
                standard_row(Kind::Ethernet),
                standard_row(Kind::Vlan),
                standard_row(Kind::Mpls),
                standard_row(Kind::Ipv4),
                standard_row(Kind::Ipv6),
                standard_row(Kind::Tcp),
                standard_row(Kind::Udp),
                standard_row(Kind::Gre),
                standard_row(Kind::Icmp),
                standard_row(Kind::Arp),
                standard_row(Kind::Other),
            ],
        }
    }

    /// The fewest bytes that a header of the kind has.
    pub fn minimum(&self, kind: Kind) -> u8
        ensures { result ≡ minimum_in self.now kind }
    {
        self.row(kind).minimum
    }

    /// Where the kind's field of the number lies. None past the kind's list.
    pub fn field(&self, kind: Kind, number: usize) -> Option<FieldPlace>
        ensures { result ≡ field_in self.now kind number }
    {
        let row = self.row(kind);
        if number < usize::from(row.field_count) {
            row.fields.get(number).copied()
        } else {
            None
        }
    }

    // The kind's row.
    fn row(&self, kind: Kind) -> KindRow
        ensures { result ≡ row_in self.now kind }
    {
        self.rows[usize::from(u8::from(kind))]
    }
}
