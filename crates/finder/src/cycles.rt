// The cycles of a pattern under a plan, and the tests of a book and r that calls begin with.
ghost use Rattle.std.specs.Prelude.{◌≡◌, ◌≤◌, length};
ghost use Rattle.scope.specs.Plans.{pixels};
ghost use Rattle.scope.specs.Cycles.{cycles};
ghost use Rattle.scope.specs.Banks.{over_start};
ghost use Rattle.scope.specs.Calls.{book_test, cycles_first, write_cycles};
ghost use Rattle.book.specs.Scan.{outcome_of};

use crate::clash::{bank_in, suits_answer};
use book::{entry_number, record_outcome};
use scope::{Book, FetchAnswer, Pattern, Plan, Refusal, Tested};

// 2, 3, 4, 19, 20: whether a record is a book and r is from 1 to 8.
pub fn book_outcome(book: Book, r: u32) -> Result<(), Refusal>
    ensures { result ≡ outcome_of (book_test book r) }
{
    record_outcome(book)?;
    if r == 0 {
        return Err(Refusal::Cycles);
    }
    if 8 < r {
        return Err(Refusal::Cycles);
    }
    Ok(())
}

// 2, 3, 4, 19, 20, 11, 17.
fn cycles_outcome(book: Book, r: u32, p: Plan, n: usize) -> Result<(), Refusal>
    ensures { result ≡ outcome_of (cycles_first book r p n) }
{
    book_outcome(book, r)?;
    if !p.is_plan() {
        return Err(Refusal::NotPlan);
    }
    if book.count <= n {
        return Err(Refusal::NoPattern);
    }
    Ok(())
}

// Puts the cycle of each pixel of a pattern at the start of the output. `taken` counts the pixels so far in each bank.
fn put_cycles(p: Tested, t: Pattern, out: &mut [u8])
    requires { (t.used ≤ 64) × (t.used ≤ length out.old) }
    ensures { out.new ≡ over_start (cycles p.plan (pixels t)) out.old }
{
    let columns = t.columns;
    let rows = t.rows;
    let mut taken = [0u8; 1024];
    for e in 0..t.used {
        let k = bank_in(p, columns[e], rows[e]);
        let cycle = taken[k];
        out[e] = cycle;
        taken[k] = cycle + 1;
    }
}

// Writes the cycles of pattern n, one byte to a pixel, and tells how many, or 2, 3, 4, 19, 20, 11, 17, 10, 16 and the output as it was.
pub fn write_cycles(book: Book, r: u32, p: Plan, n: usize, out: &mut [u8]) -> FetchAnswer
    ensures answer { (result.counted ≡ (write_cycles book r p n out.old).answer.counted) × (result.positions ≡ (write_cycles book r p n out.old).answer.positions) }
    ensures left { out.new ≡ (write_cycles book r p n out.old).content }
{
    let outcome = cycles_outcome(book, r, p, n);
    if let Err(f) = outcome {
        return FetchAnswer {
            counted: Err(f),
            positions: [0; 9],
        };
    }
    let k = entry_number(n);
    let t = book.patterns[k];
    let suited = suits_answer(p, n, t, r);
    let positions = suited.positions;
    let suits = suited.outcome;
    if let Err(f) = suits {
        return FetchAnswer {
            counted: Err(f),
            positions,
        };
    }
    if out.len() < t.used {
        return FetchAnswer {
            counted: Err(Refusal::Output),
            positions,
        };
    }
    put_cycles(Tested { plan: p }, t, out);
    FetchAnswer {
        counted: Ok(t.used as u64),
        positions,
    }
}
