// The writer: a record's bytes to the start of a lent output.
ghost use Rattle.std.specs.Prelude.{◌≡◌, ◌+◌, ◌*◌, ◌≤◌, length};
ghost use Rattle.std.proofs.Math.Option.{none};
ghost use Rattle.scope.specs.Plans.{pixels};
ghost use Rattle.scope.specs.Banks.{over_start};
ghost use Rattle.scope.specs.Books.{unsigned, pattern_bytes, book_bytes};
ghost use Rattle.scope.specs.Numbers.{record_test};
ghost use Rattle.scope.specs.Calls.{write_book};

use crate::record::record_outcome;
use scope::{Book, Pattern, Refusal};

// The byte of a number in two's complement.
fn unsigned_byte(z: i8) -> u8
    ensures { result ≡ unsigned z }
{
    z.cast_unsigned()
}

// Puts a pattern's bytes at the start of the output.
fn put_pattern(t: Pattern, out: &mut [u8])
    requires { (t.used ≤ 64) × (1 + 2 * t.used ≤ length out.old) }
    ensures { out.new ≡ over_start (pattern_bytes (pixels t)) out.old }
{
    let columns = t.columns;
    let rows = t.rows;
    let used = t.used;
    out[0] = used as u8;
    for e in 0..used {
        out[1 + 2 * e] = unsigned_byte(columns[e]);
        out[2 + 2 * e] = unsigned_byte(rows[e]);
    }
}

// How many bytes a record has.
fn byte_count(book: Book) -> usize
    requires { record_test book ≡ none }
    ensures { result ≡ length (book_bytes book) }
{
    let count = book.count;
    let mut size = 1;
    for n in 0..count {
        size += 1 + 2 * book.patterns[n].used;
    }
    size
}

// Puts a record's bytes at the start of the output.
fn put_book(book: Book, out: &mut [u8])
    requires { (record_test book ≡ none) × (length (book_bytes book) ≤ length out.old) }
    ensures { out.new ≡ over_start (book_bytes book) out.old }
{
    let count = book.count;
    out[0] = count as u8;
    let mut at = 1;
    for n in 0..count {
        let t = book.patterns[n];
        put_pattern(t, &mut out[at..]);
        at = at + 1 + 2 * t.used;
    }
}

// Writes a record's bytes to the start of the output and tells how many, or 2, 3, 4, 19, 16 and the output as it was.
pub fn write_book(book: Book, out: &mut [u8]) -> Result<u64, Refusal>
    ensures { (result ≡ (write_book book out.old).answer) × (out.new ≡ (write_book book out.old).content) }
{
    record_outcome(book)?;
    let size = byte_count(book);
    if out.len() < size {
        return Err(Refusal::Output);
    }
    put_book(book, out);
    Ok(size as u64)
}
