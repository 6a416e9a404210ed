// Plans as numbers, and book records as flat arrays: the form in which C hands them over (DECISIONS).
ghost use Rattle.std.specs.Prelude.{◌≡◌, ◌<◌, min};
ghost use Rattle.scope.specs.Plans.{plan};
ghost use Rattle.capi.specs.Flat.{entries, flat_pattern, flat_book, flat_columns, flat_rows, flat_used};

use book::empty_pattern;
use scope::{Book, Pattern, Plan};

// The plan of its numbers.
pub(crate) fn plan_of(a: u32, b: u32, d: u32) -> Plan
    ensures { result ≡ plan a b d }
{
    Plan { a, b, d }
}

// The 64 entries of pattern n.
fn entries_of(xs: &[i8; 1024], n: usize) -> [i8; 64]
    requires { n < 16 }
    ensures { result ≡ entries xs.now n }
{
    let mut out = [0i8; 64];
    out.copy_from_slice(&xs[64 * n..64 * n + 64]);
    out
}

// Pattern n.
fn pattern_of(columns: &[i8; 1024], rows: &[i8; 1024], used: &[usize; 16], n: usize) -> Pattern
    requires { n < 16 }
    ensures { result ≡ flat_pattern columns.now rows.now used.now n }
{
    let xs = entries_of(columns, n);
    let ys = entries_of(rows, n);
    let count = used[n];
    Pattern {
        columns: xs,
        rows: ys,
        used: count,
    }
}

// How many patterns of a record have an entry.
fn entries_used(count: usize) -> usize
    ensures { result ≡ min count 16 }
{
    count.min(16)
}

// The record of the first `count` patterns of flat arrays, the others empty.
pub(crate) fn book_of(
    columns: &[i8; 1024],
    rows: &[i8; 1024],
    used: &[usize; 16],
    count: usize,
) -> Book
    ensures { result ≡ flat_book columns.now rows.now used.now count }
{
    let end = entries_used(count);
    let empty = empty_pattern();
    let mut book = Book {
        patterns: [empty; 16],
        count,
    };
    for n in 0..end {
        book.patterns[n] = pattern_of(columns, rows, used, n);
    }
    book
}

// Puts a record's columns and rows into two arrays.
pub(crate) fn put_pixels(book: Book, columns: &mut [i8; 1024], rows: &mut [i8; 1024])
    ensures { (columns.new ≡ flat_columns book) × (rows.new ≡ flat_rows book) }
{
    *columns = [0i8; 1024];
    *rows = [0i8; 1024];
    for k in 0..1024 {
        let t = book.patterns[k / 64];
        let e = k % 64;
        let x = t.columns[e];
        let y = t.rows[e];
        columns[k] = x;
        rows[k] = y;
    }
}

// Puts a record's used counts into an array.
pub(crate) fn put_used(book: Book, out: &mut [usize; 16])
    ensures { out.new ≡ flat_used book }
{
    *out = [0usize; 16];
    for n in 0..16 {
        let t = book.patterns[n];
        out[n] = t.used;
    }
}
