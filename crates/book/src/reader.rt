// The reader: a book's bytes into a record.
ghost use Rattle.std.specs.Prelude.{◌≡◌, [], ◌+◌, ◌*◌, ◌≤◌, length};
ghost use Rattle.std.proofs.Math.Option.{none};
ghost use Rattle.scope.specs.Books.{byte, pattern_from, pattern_of, book_of, book_in};
ghost use Rattle.scope.specs.Numbers.{bytes_test};
ghost use Rattle.scope.specs.Calls.{read_book};

use crate::scanner::{bytes_outcome, signed_byte};
use scope::{Book, Pattern, Reading};

// The pattern whose pixel count is at place `at`, unused entries 0.
fn pattern_at(s: &[u8], at: usize) -> Pattern
    requires { (byte s.now at ≤ 64) × (at + 1 + 2 * byte s.now at ≤ length s.now) }
    ensures { result ≡ pattern_of (pattern_from s.now at) }
{
    let used = s[at] as usize;
    let mut columns = [0i8; 64];
    let mut rows = [0i8; 64];
    for e in 0..used {
        let i = at + 1 + 2 * e;
        let x = signed_byte(s[i]);
        let y = signed_byte(s[i + 1]);
        columns[e] = x;
        rows[e] = y;
    }
    Pattern {
        columns,
        rows,
        used,
    }
}

// The pattern of no pixel: every entry 0.
pub fn empty_pattern() -> Pattern
    ensures { result ≡ pattern_of [] }
{
    Pattern {
        columns: [0i8; 64],
        rows: [0i8; 64],
        used: 0,
    }
}

// The book of no pattern.
fn empty_book() -> Book
    ensures { result ≡ book_of [] }
{
    let empty = empty_pattern();
    Book {
        patterns: [empty; 16],
        count: 0,
    }
}

// The record of bytes that are a book.
fn book_at(s: &[u8]) -> Book
    requires { bytes_test s.now ≡ none }
    ensures { result ≡ book_in s.now }
{
    let empty = empty_pattern();
    let mut patterns = [empty; 16];
    let count = s[0] as usize;
    let mut at = 1;
    for n in 0..count {
        let t = pattern_at(s, at);
        patterns[n] = t;
        at = at + 1 + 2 * s[at] as usize;
    }
    Book { patterns, count }
}

// Reads a book's bytes into a record, or 1 to 5, 19 with the empty record.
pub fn read_book(s: &[u8]) -> Reading
    ensures { result ≡ read_book s.now }
{
    let outcome = bytes_outcome(s);
    if let Err(_) = outcome {
        let book = empty_book();
        return Reading { book, outcome };
    }
    let book = book_at(s);
    Reading { book, outcome }
}
