// The first part of a row, made longer header by header, and the row that it ends as.
ghost use Rattle.std.specs.Prelude.{◌≡◌, ◌+◌, ◌<◌, ◌≤◌, [], map, length, slice_index_or};
ghost use Rattle.stores.specs.Fits.{fits};
ghost use Rattle.walks.specs.Rows.{free, cells_of};
ghost use Rattle.compiler.specs.Held.{held};
ghost use Rattle.compiler.specs.Sinks.{cell_of, cells_in, fits_start, Longer};

use crate::few::Few;
use patterns::row::TernaryRow;
use std::array;
use stores::question::Row;
use stores::state::State;

// As many bytes as four nodes of four lookup places have.
const BYTES: usize = 16;

// A byte of a row's value, with that of its mask.
#[derive(Clone, Copy)]
pub struct Masked {
    pub value: u8,
    pub mask: u8,
}

// A byte that is not looked at.
const FREE: Masked = Masked { value: 0, mask: 0 };

// The first part of a row: its state, the bytes of its value and mask so far, and the headers passed
// beyond the first.
#[derive(Clone, Copy)]
pub struct Start {
    pub state: State,
    pub bytes: Few<Masked, BYTES>,
    pub beyond: u8,
}

impl Start {
    // Nothing yet but the state.
    pub(crate) fn new(state: State) -> Start
        ensures state { result.state ≡ state }
        ensures bytes { held result.bytes ≡ [] }
        ensures beyond { result.beyond ≡ 0 }
    {
        Start {
            state,
            bytes: Few::new(FREE),
            beyond: 0,
        }
    }

    // The row that has the first part and no more.
    pub(crate) fn row(&self) -> Row
        ensures { fits result ≡ fits_start self.now }
    {
        Row {
            state: self.state,
            value: u64::from_be_bytes(array::from_fn(|i| self.byte(i).value)),
            mask: u64::from_be_bytes(array::from_fn(|i| self.byte(i).mask)),
        }
    }

    // The byte at a place; past the last, one that is not looked at.
    fn byte(&self, i: usize) -> Masked
        ensures value { result.value ≡ (slice_index_or (cells_in self.now) i free).value }
        ensures mask { result.mask ≡ (slice_index_or (cells_in self.now) i free).mask }
    {
        self.bytes.as_slice().get(i).copied().unwrap_or(FREE)
    }

    // The first part with the lookup bytes of a piece behind it, the topmost first.
    pub(crate) fn longer(&self, piece: TernaryRow, width: usize) -> Start
        requires { (width ≤ 4) × (length (held self.now.bytes) + width ≤ 16) }
        ensures { Longer self.now result width piece 0 }
    {
        let mut longer = *self;
        longer.bytes.extend_from_slice(&bytes_of(piece)[..width]);
        longer
    }

    // One header more is passed.
    pub(crate) fn passed(&self) -> Start
        requires { self.now.beyond < 255 }
        ensures { result ≡ record self.now { beyond = self.now.beyond + 1 } }
    {
        Start {
            beyond: self.beyond + 1,
            ..*self
        }
    }
}

// The bytes of a piece, the topmost first.
fn bytes_of(piece: TernaryRow) -> [Masked; 4]
    ensures { map cell_of result ≡ cells_of 4 piece.value piece.mask }
{
    let values = piece.value.to_be_bytes();
    let masks = piece.mask.to_be_bytes();
    array::from_fn(|i| Masked {
        value: values[i],
        mask: masks[i],
    })
}
