// The sliced store, and the table of words that it keeps its rows in.
ghost use Rattle.std.specs.Prelude.{◌≡◌, ◌+◌, ◌*◌, ◌<◌, length, slice_index};
ghost use Rattle.std.proofs.Common.{arith};
ghost use Rattle.slices.specs.WordLaws.{rows_length};
ghost use Rattle.slices.specs.Words.{half_of, named, rows_of};

use crate::words::{accepts_at, half, lowest_bit, with_bit};
use stores::question::{Question, Row};
use stores::table::Table;
use stores::tabled::Tabled;

/// 64 rows: for each half byte of a question and each of its values a word, one bit a row.
#[derive(Clone, Copy)]
pub struct Words {
    words: [u64; 288],
    ghost whole: { length words ≡ 288 },
}

/// A store of 64 rows, which are tried all at once.
pub type Sliced = Tabled<Words, 64>;

impl Words {
    // The word that a question names at a place.
    fn named_at(&self, question: &Question, place: usize) -> u64
        requires { place < 18 }
        ensures { result ≡ slice_index self.now.words (place * 16 + half_of question.now.state.number question.now.key place) }
    {
        self.words[place * 16 + half(question.state.number(), question.key, place)]
    }

    // The words that the question names, one at each place, put together by AND.
    fn all_named(&self, question: &Question) -> u64
        ensures { result ≡ named self.now.words (half_of question.now.state.number question.now.key) 18 }
    {
        // A place is no index of a list: it names a half byte of the question, which names a word.
        // A fold was tried: its proof does not close.
        let mut all = u64::MAX;
        for place in 0..18 {
            all &= self.named_at(question, place);
        }
        all
    }
}

// By hand: `Default` is not derived for a struct with a ghost field.
impl Default for Words {
    /// A table of which no place is held yet, so that any rows will do.
    fn default() -> Words {
        Words { words: [0; 288] }
    }
}

impl Table<64> for Words {
    ghost rows = { λ t held. rows_of t.words held };

    ghost length_rows = { λ t held h. rows_length t.words held };

    // Bit `held` of each word says whether the row accepts the word's value at the word's place.
    fn put(&mut self, held: u16, row: Row) {
        if held >= 64 {
            return;
        }
        for (i, word) in self.words.iter_mut().enumerate() {
            *word = with_bit(*word, held, accepts_at(row, i / 16, i % 16));
        }
    }

    // The lowest bit that is set in all words that the question names.
    fn first_fitting(&self, held: u16, question: &Question) -> Option<u16> {
        if held > 64 {
            return None;
        }
        lowest_bit(self.all_named(question), held)
    }
}
