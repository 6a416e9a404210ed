// The calls on a picture: the memory is a slice of 16-bit words, the sums of its banks one of 64-bit numbers.
ghost use Rattle.std.specs.Prelude.{◌≡◌};
ghost use Rattle.scope.specs.Plans.{at, plan};
ghost use Rattle.scope.specs.Numbers.{of_result, of_fetch};
ghost use Rattle.scope.specs.Calls.{lent, store, load, clear, sum, make_sums, read_sum, fetch, ring_fetch};
ghost use Rattle.capi.specs.Told.{Tells, number_row, no_row};
ghost use Rattle.capi.specs.Flat.{flat_book};

use crate::flat::{book_of, plan_of};
use crate::told::{tell, tell_fetch};
use pictures::{clear, fetch, load, make_sums, read_sum, ring_fetch, store, sum};

// Stores x at the pixel (i, j) and keeps its bank's sum.
#[unsafe(no_mangle)]
pub extern "C" fn bankplan_store(
    a: u32,
    b: u32,
    d: u32,
    w: u32,
    h: u32,
    mem: &mut [u16],
    sums: &mut [u64],
    i: i16,
    j: i16,
    x: u16,
    answer: &mut [u64; 12],
) -> u64
    ensures told { Tells no_row (of_result (store (plan a b d) w h (lent mem.old sums.old) (at i j) x).answer) answer.old answer.new result }
    ensures left { lent mem.new sums.new ≡ (store (plan a b d) w h (lent mem.old sums.old) (at i j) x).content }
{
    tell(store(plan_of(a, b, d), w, h, mem, sums, i, j, x), answer)
}

// The word at the pixel (i, j).
#[unsafe(no_mangle)]
pub extern "C" fn bankplan_load(
    a: u32,
    b: u32,
    d: u32,
    w: u32,
    h: u32,
    mem: &[u16],
    i: i16,
    j: i16,
    answer: &mut [u64; 12],
) -> u64
    ensures { Tells number_row (of_result (load (plan a b d) w h mem.now (at i j))) answer.old answer.new result }
{
    tell(load(plan_of(a, b, d), w, h, mem, i, j), answer)
}

// Clears bank k and its sum.
#[unsafe(no_mangle)]
pub extern "C" fn bankplan_clear(
    a: u32,
    b: u32,
    d: u32,
    w: u32,
    h: u32,
    mem: &mut [u16],
    sums: &mut [u64],
    k: u64,
    answer: &mut [u64; 12],
) -> u64
    ensures told { Tells no_row (of_result (clear (plan a b d) w h (lent mem.old sums.old) k).answer) answer.old answer.new result }
    ensures left { lent mem.new sums.new ≡ (clear (plan a b d) w h (lent mem.old sums.old) k).content }
{
    tell(clear(plan_of(a, b, d), w, h, mem, sums, k), answer)
}

// The sum of bank k's words.
#[unsafe(no_mangle)]
pub extern "C" fn bankplan_sum(
    a: u32,
    b: u32,
    d: u32,
    w: u32,
    h: u32,
    mem: &[u16],
    k: u64,
    answer: &mut [u64; 12],
) -> u64
    ensures { Tells number_row (of_result (sum (plan a b d) w h mem.now k)) answer.old answer.new result }
{
    tell(sum(plan_of(a, b, d), w, h, mem, k), answer)
}

// Makes the sums of all banks afresh from the memory.
#[unsafe(no_mangle)]
pub extern "C" fn bankplan_make_sums(
    a: u32,
    b: u32,
    d: u32,
    w: u32,
    h: u32,
    mem: &[u16],
    sums: &mut [u64],
    answer: &mut [u64; 12],
) -> u64
    ensures told { Tells no_row (of_result (make_sums (plan a b d) w h (lent mem.now sums.old)).answer) answer.old answer.new result }
    ensures left { lent mem.now sums.new ≡ (make_sums (plan a b d) w h (lent mem.now sums.old)).content }
{
    tell(make_sums(plan_of(a, b, d), w, h, mem, sums), answer)
}

// The sum that is kept of bank k.
#[unsafe(no_mangle)]
pub extern "C" fn bankplan_read_sum(
    a: u32,
    b: u32,
    d: u32,
    sums: &[u64],
    k: u64,
    answer: &mut [u64; 12],
) -> u64
    ensures { Tells number_row (of_result (read_sum (plan a b d) sums.now k)) answer.old answer.new result }
{
    tell(read_sum(plan_of(a, b, d), sums, k), answer)
}

// Fetches pattern n of a record given as flat arrays, moved to (i, j), and tells how many words.
#[unsafe(no_mangle)]
pub extern "C" fn bankplan_fetch(
    columns: &[i8; 1024],
    rows: &[i8; 1024],
    used: &[usize; 16],
    count: usize,
    r: u32,
    a: u32,
    b: u32,
    d: u32,
    w: u32,
    h: u32,
    mem: &[u16],
    n: usize,
    i: i16,
    j: i16,
    out: &mut [u16],
    answer: &mut [u64; 12],
) -> u64
    ensures told { Tells number_row (of_fetch r (fetch (flat_book columns.now rows.now used.now count) r (plan a b d) w h mem.now n (at i j) out.old).answer) answer.old answer.new result }
    ensures out { out.new ≡ (fetch (flat_book columns.now rows.now used.now count) r (plan a b d) w h mem.now n (at i j) out.old).content }
{
    let book = book_of(columns, rows, used, count);
    let p = plan_of(a, b, d);
    tell_fetch(fetch(book, r, p, w, h, mem, n, i, j, out), r, answer)
}

// The same around the picture's edges.
#[unsafe(no_mangle)]
pub extern "C" fn bankplan_ring_fetch(
    columns: &[i8; 1024],
    rows: &[i8; 1024],
    used: &[usize; 16],
    count: usize,
    r: u32,
    a: u32,
    b: u32,
    d: u32,
    w: u32,
    h: u32,
    mem: &[u16],
    n: usize,
    i: i16,
    j: i16,
    out: &mut [u16],
    answer: &mut [u64; 12],
) -> u64
    ensures told { Tells number_row (of_fetch r (ring_fetch (flat_book columns.now rows.now used.now count) r (plan a b d) w h mem.now n (at i j) out.old).answer) answer.old answer.new result }
    ensures out { out.new ≡ (ring_fetch (flat_book columns.now rows.now used.now count) r (plan a b d) w h mem.now n (at i j) out.old).content }
{
    let book = book_of(columns, rows, used, count);
    let p = plan_of(a, b, d);
    tell_fetch(ring_fetch(book, r, p, w, h, mem, n, i, j, out), r, answer)
}
