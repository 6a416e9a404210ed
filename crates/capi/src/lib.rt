// The library for C and Rust: the calls on numbers, slices and arrays. Each answers a number, 0 where it was not refused, and
// puts what it has to tell at the start of `answer`, the rest of the twelve unchanged: its values, or the refusal's place and,
// of 10, the clash's pattern and its r + 1 positions.
#![tactic(auto)]

mod flat;
mod list;
mod memory;
mod runs;
mod told;

ghost use Rattle.std.specs.Prelude.{◌≡◌, [], ◌∷◌, length};
ghost use Rattle.scope.specs.Plans.{at, plan};
ghost use Rattle.scope.specs.Numbers.{of_result, of_located, of_check, of_fetch};
ghost use Rattle.scope.specs.Calls.{read_book, pattern_part, part_outcome, part_place, record_outcome, write_book, normal, find, check, write_cycles, bank, depth, address, locate};
ghost use Rattle.capi.specs.Told.{Tells, plan_row, number_row, pixel_row, checked_row, no_row};
ghost use Rattle.capi.specs.Flat.{flat_book, flat_columns, flat_rows, flat_used, of_reading, count_row, when_read};

use crate::flat::{book_of, plan_of, put_pixels, put_used};
use crate::told::{tell, tell_check, tell_fetch, tell_refusal};
use book::{part_outcome, part_place, pattern_part, read_book, record_outcome, write_book};
use finder::{check, find, write_cycles};
use lattice::normal_form;

// The normal form of (x1, x2) and (y1, y2): a, b, d.
#[unsafe(no_mangle)]
pub extern "C" fn bankplan_normal_form(
    x1: i16,
    x2: i16,
    y1: i16,
    y2: i16,
    answer: &mut [u64; 12],
) -> u64
    ensures { Tells plan_row (of_result (normal (at x1 x2) (at y1 y2))) answer.old answer.new result }
{
    tell(normal_form(x1, x2, y1, y2), answer)
}

// The bank of the pixel (i, j).
#[unsafe(no_mangle)]
pub extern "C" fn bankplan_bank(
    a: u32,
    b: u32,
    d: u32,
    i: i16,
    j: i16,
    answer: &mut [u64; 12],
) -> u64
    ensures { Tells number_row (of_result (bank (plan a b d) (at i j))) answer.old answer.new result }
{
    tell(plan_of(a, b, d).bank(i, j), answer)
}

// The depth for a picture of width w and height h.
#[unsafe(no_mangle)]
pub extern "C" fn bankplan_depth(
    a: u32,
    b: u32,
    d: u32,
    w: u32,
    h: u32,
    answer: &mut [u64; 12],
) -> u64
    ensures { Tells number_row (of_result (depth (plan a b d) w h)) answer.old answer.new result }
{
    tell(plan_of(a, b, d).depth(w, h), answer)
}

// The address of the pixel (i, j).
#[unsafe(no_mangle)]
pub extern "C" fn bankplan_address(
    a: u32,
    b: u32,
    d: u32,
    w: u32,
    h: u32,
    i: i16,
    j: i16,
    answer: &mut [u64; 12],
) -> u64
    ensures { Tells number_row (of_result (address (plan a b d) w h (at i j))) answer.old answer.new result }
{
    tell(plan_of(a, b, d).address(w, h, i, j), answer)
}

// The column and row of the pixel of bank k and address i.
#[unsafe(no_mangle)]
pub extern "C" fn bankplan_locate(
    a: u32,
    b: u32,
    d: u32,
    w: u32,
    h: u32,
    k: u64,
    i: u64,
    answer: &mut [u64; 12],
) -> u64
    ensures { Tells pixel_row (of_located (locate (plan a b d) w h k i)) answer.old answer.new result }
{
    tell(plan_of(a, b, d).locate(w, h, k, i), answer)
}

// Reads a book's bytes into a record's flat arrays, and tells the pattern count.
#[unsafe(no_mangle)]
pub extern "C" fn bankplan_read_book(
    s: &[u8],
    columns: &mut [i8; 1024],
    rows: &mut [i8; 1024],
    used: &mut [usize; 16],
    answer: &mut [u64; 12],
) -> u64
    ensures told { Tells count_row (of_reading (read_book s.now)) answer.old answer.new result }
    ensures columns { columns.new ≡ when_read flat_columns (read_book s.now) columns.old }
    ensures rows { rows.new ≡ when_read flat_rows (read_book s.now) rows.old }
    ensures used { used.new ≡ when_read flat_used (read_book s.now) used.old }
{
    let reading = read_book(s);
    let outcome = reading.outcome;
    if let Err(r) = outcome {
        return tell_refusal(r, answer);
    }
    let record = reading.book;
    put_pixels(record, columns, rows);
    put_used(record, used);
    answer[0] = record.count as u64;
    0
}

// The place and the length of pattern n's part of a book's bytes.
#[unsafe(no_mangle)]
pub extern "C" fn bankplan_pattern_part(s: &[u8], n: usize, answer: &mut [u64; 12]) -> u64
    ensures { Tells (λ x. part_place s.now n ∷ length (pattern_part s.now n) ∷ []) (of_result (part_outcome s.now n)) answer.old answer.new result }
{
    let outcome = part_outcome(s, n);
    if let Err(r) = outcome {
        return tell_refusal(r, answer);
    }
    let part = pattern_part(s, n);
    let place = part_place(s, n);
    answer[0] = place as u64;
    answer[1] = part.len() as u64;
    0
}

// Writes the bytes of a record given as flat arrays, and tells how many.
#[unsafe(no_mangle)]
pub extern "C" fn bankplan_write_book(
    columns: &[i8; 1024],
    rows: &[i8; 1024],
    used: &[usize; 16],
    count: usize,
    out: &mut [u8],
    answer: &mut [u64; 12],
) -> u64
    ensures told { Tells number_row (of_result (write_book (flat_book columns.now rows.now used.now count) out.old).answer) answer.old answer.new result }
    ensures out { out.new ≡ (write_book (flat_book columns.now rows.now used.now count) out.old).content }
{
    let record = book_of(columns, rows, used, count);
    tell(write_book(record, out), answer)
}

// Whether a record given as flat arrays is a book.
#[unsafe(no_mangle)]
pub extern "C" fn bankplan_test_record(
    columns: &[i8; 1024],
    rows: &[i8; 1024],
    used: &[usize; 16],
    count: usize,
    answer: &mut [u64; 12],
) -> u64
    ensures { Tells no_row (of_result (record_outcome (flat_book columns.now rows.now used.now count))) answer.old answer.new result }
{
    tell(record_outcome(book_of(columns, rows, used, count)), answer)
}

// The plan for r with the fewest banks within the limit for a record given as flat arrays: a, b, d.
#[unsafe(no_mangle)]
pub extern "C" fn bankplan_find(
    columns: &[i8; 1024],
    rows: &[i8; 1024],
    used: &[usize; 16],
    count: usize,
    r: u32,
    limit: u32,
    answer: &mut [u64; 12],
) -> u64
    ensures { Tells plan_row (of_result (find (flat_book columns.now rows.now used.now count) r limit)) answer.old answer.new result }
{
    tell(find(book_of(columns, rows, used, count), r, limit), answer)
}

// The verdict for r on (x1, x2) and (y1, y2) for a record given as flat arrays: a, b, d and the surplus, or a refusal; a clash is 10.
#[unsafe(no_mangle)]
pub extern "C" fn bankplan_check(
    columns: &[i8; 1024],
    rows: &[i8; 1024],
    used: &[usize; 16],
    count: usize,
    r: u32,
    x1: i16,
    x2: i16,
    y1: i16,
    y2: i16,
    answer: &mut [u64; 12],
) -> u64
    ensures { Tells checked_row (of_check r (check (flat_book columns.now rows.now used.now count) r (at x1 x2) (at y1 y2))) answer.old answer.new result }
{
    tell_check(
        check(book_of(columns, rows, used, count), r, x1, x2, y1, y2),
        r,
        answer,
    )
}

// Writes the cycles for r of pattern n of a record given as flat arrays, and tells how many.
#[unsafe(no_mangle)]
pub extern "C" fn bankplan_write_cycles(
    columns: &[i8; 1024],
    rows: &[i8; 1024],
    used: &[usize; 16],
    count: usize,
    r: u32,
    a: u32,
    b: u32,
    d: u32,
    n: usize,
    out: &mut [u8],
    answer: &mut [u64; 12],
) -> u64
    ensures told { Tells number_row (of_fetch r (write_cycles (flat_book columns.now rows.now used.now count) r (plan a b d) n out.old).answer) answer.old answer.new result }
    ensures out { out.new ≡ (write_cycles (flat_book columns.now rows.now used.now count) r (plan a b d) n out.old).content }
{
    let book = book_of(columns, rows, used, count);
    tell_fetch(write_cycles(book, r, plan_of(a, b, d), n, out), r, answer)
}
