// The listing store: 512 rows, tried in order.
ghost use Rattle.std.specs.Prelude.{◌≡◌, map, position, length, take};
ghost use Rattle.std.proofs.Common.{arith};
ghost use Rattle.stores.specs.Fits.{fits};
ghost use Rattle.stores.specs.Listings.{length_listed};

use crate::question::{Question, Row};
use crate::table::Table;
use crate::tabled::Tabled;

/// 512 rows. A question tries them in order.
#[derive(Clone, Copy)]
pub struct Rows {
    rows: [Row; 512],
    ghost whole: { length rows ≡ 512 },
}

/// A store of 512 rows. A question tries them in order.
pub type Listing = Tabled<Rows, 512>;

// By hand: `Default` is not derived for a struct with a ghost field.
impl Default for Rows {
    /// A table of which no place is held yet, so that any rows will do.
    fn default() -> Rows {
        Rows {
            rows: [Row::default(); 512],
        }
    }
}

// The place of the first of the rows that fits.
fn first_place(rows: &[Row], question: &Question) -> Option<usize>
    ensures { result ≡ position (λ r. fits r question.now) rows.now }
{
    rows.iter().position(|row| row.fits(question))
}

impl Table<512> for Rows {
    ghost rows = { λ t held. map fits (take held t.rows) };

    ghost length_rows = { λ t held h. length_listed t.rows held (omega arith) };

    fn put(&mut self, held: u16, row: Row) {
        if usize::from(held) < self.rows.len() {
            self.rows[usize::from(held)] = row;
        }
    }

    fn first_fitting(&self, held: u16, question: &Question) -> Option<u16> {
        let end = usize::from(held);
        if end > self.rows.len() {
            return None;
        }
        first_place(&self.rows[..end], question).map(|place| place as u16)
    }
}

impl Tabled<Rows, 512> {
    /// The rows that are held, in order.
    pub fn rows(&self) -> &[Row]
        ensures { result.now ≡ take self.now.held self.now.table.rows }
    {
        &self.table.rows[..usize::from(self.held)]
    }
}
