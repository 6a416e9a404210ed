// The validity of a book record: 2, 3, 4, 19 in book order, with place 0.
ghost use Rattle.std.specs.Prelude.{◌≡◌, ◌≤◌};
ghost use Rattle.scope.specs.Search.{first};
ghost use Rattle.scope.specs.Plans.{pixel_at};
ghost use Rattle.scope.specs.Numbers.{pixel_test, pattern_test};
ghost use Rattle.scope.specs.Calls.{record_outcome};
ghost use Rattle.book.specs.Scan.{outcome_of, entry_number};

use crate::cells::pixel_outcome;
use scope::{Book, Pattern, Refusal};

// The number of the entry that stands for pattern n: n, or the last one where there is none.
pub fn entry_number(n: usize) -> usize
    ensures { result ≡ entry_number n }
{
    n.min(15)
}

// The tests of a pattern's pixels.
fn pixels_outcome(t: Pattern) -> Result<(), Refusal>
    requires { t.used ≤ 64 }
    ensures { result ≡ outcome_of (first 0 t.used (pixel_test 0 0 (pixel_at t))) }
{
    let columns = t.columns;
    let rows = t.rows;
    let used = t.used;
    let mut least = [0u16; 65];
    for e in 0..used {
        pixel_outcome(columns[e], rows[e], 0, 0, e, &mut least)?;
    }
    Ok(())
}

// The tests of a pattern.
fn pattern_outcome(t: Pattern) -> Result<(), Refusal>
    ensures { result ≡ outcome_of (pattern_test t) }
{
    let used = t.used;
    if used == 0 {
        return Err(Refusal::Count(0));
    }
    if 64 < used {
        return Err(Refusal::Count(0));
    }
    pixels_outcome(t)
}

// Whether a record is a book, or 2, 3, 4, 19.
pub fn record_outcome(book: Book) -> Result<(), Refusal>
    ensures { result ≡ record_outcome book }
{
    let count = book.count;
    if count == 0 {
        return Err(Refusal::Count(0));
    }
    if 16 < count {
        return Err(Refusal::Count(0));
    }
    for n in 0..count {
        let t = book.patterns[n];
        pattern_outcome(t)?;
    }
    Ok(())
}
