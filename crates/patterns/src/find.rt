// The searches in a list of plain rows: one text for every sort of pattern. Rows that make no pattern
// are skipped.
ghost use Rattle.std.specs.Prelude.{◌≡◌, ◌<◌, length, take, IfSome};
ghost use Rattle.patterns.specs.Finding.{row_fits, first_fit, row_covers, any_covers, covered, first_covered};
ghost use Rattle.patterns.specs.Firsts.{First, FitsAt, CoveredAt};

use crate::pattern::Pattern;

/// Whether the row makes a pattern that the key fits.
fn row_fits<P: Pattern>(row: &P::Plain, key: P::Key) -> bool
    ensures { result ≡ row_fits P.made P.fits key row.now }
{
    P::make(row).is_some_and(|pattern| pattern.fits(key))
}

/// The place of the first row that the key fits. Where no row fits, the answer is `None`.
pub fn first_fit<P: Pattern>(rows: &[P::Plain], key: P::Key) -> Option<usize>
    ensures is { result ≡ first_fit P.made P.fits key rows.now }
    ensures first { First (FitsAt P.made P.fits rows.now key) result }
    ensures within { IfSome result (λ i. i < length rows.now) }
{
    place_of_fit::<P>(rows, key)
}

// Apart from `first_fit`: with the clauses of both in one function, which was tried, the chain's proof
// does not close.
fn place_of_fit<P: Pattern>(rows: &[P::Plain], key: P::Key) -> Option<usize>
    ensures { result ≡ first_fit P.made P.fits key rows.now }
{
    rows.iter().position(|row| row_fits::<P>(row, key))
}

/// Whether the row makes a pattern that covers the other.
fn row_covers<P: Pattern>(row: &P::Plain, other: &P) -> bool
    ensures { result ≡ row_covers P.made P.covers other.now row.now }
{
    P::make(row).is_some_and(|pattern| pattern.covers(other))
}

/// Whether one of the rows covers the pattern.
fn any_covers<P: Pattern>(rows: &[P::Plain], other: &P) -> bool
    ensures { result ≡ any_covers P.made P.covers other.now rows.now }
{
    rows.iter().any(|row| row_covers::<P>(row, other))
}

/// Whether the row makes a pattern that one of the first `i` rows covers.
fn row_covered<P: Pattern>(rows: &[P::Plain], i: usize, row: &P::Plain) -> bool
    requires { i < length rows.now }
    ensures { result ≡ covered P.made P.covers (take i rows.now) row.now }
{
    P::make(row).is_some_and(|pattern| any_covers::<P>(&rows[0..i], &pattern))
}

/// The place of the first row that a row before it covers, so that it never decides. Where there is
/// none, the answer is `None`.
pub fn first_covered<P: Pattern>(rows: &[P::Plain]) -> Option<usize>
    ensures is { result ≡ first_covered P.made P.covers rows.now }
    ensures first { First (CoveredAt P.keys P.made P.fits rows.now) result }
    ensures within { IfSome result (λ i. i < length rows.now) }
{
    place_of_covered::<P>(rows)
}

// Apart from `first_covered`, as above.
fn place_of_covered<P: Pattern>(rows: &[P::Plain]) -> Option<usize>
    ensures is { result ≡ first_covered P.made P.covers rows.now }
    ensures within { IfSome result (λ i. i < length rows.now) }
{
    rows.iter()
        .enumerate()
        .position(|(i, row)| row_covered::<P>(rows, i, row))
}
