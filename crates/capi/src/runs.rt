// Lists of calls in numbers: five to a call, twelve to a reply.
ghost use Rattle.std.specs.Prelude.{◌≡◌};
ghost use Rattle.scope.specs.Plans.{plan};
ghost use Rattle.pictures.specs.Lists.{setting, buffers, run_list, SumsDemanded};
ghost use Rattle.claims.specs.Demanded.{find_and_run, Demanded};
ghost use Rattle.capi.specs.Told.{Tells, no_row, plan_row, of_listed, of_found_run};
ghost use Rattle.capi.specs.Flat.{flat_book};

use crate::flat::{book_of, plan_of};
use crate::told::{tell_found, tell_listed};
use claims::find_and_run;
use pictures::run_list;

// Makes a list of calls under one plan, of a record given as flat arrays.
#[unsafe(no_mangle)]
pub extern "C" fn bankplan_run_list(
    columns: &[i8; 1024],
    rows: &[i8; 1024],
    used: &[usize; 16],
    count: usize,
    r: u32,
    a: u32,
    b: u32,
    d: u32,
    w: u32,
    h: u32,
    mem: &mut [u16],
    sums: &mut [u64],
    numbers: &[u64],
    outs: &mut [u16],
    replies: &mut [u64],
    answer: &mut [u64; 12],
) -> u64
    ensures told { Tells no_row (of_listed (run_list (setting (flat_book columns.now rows.now used.now count) r (plan a b d) w h) numbers.now (buffers mem.old sums.old outs.old replies.old)).answer) answer.old answer.new result }
    ensures left { buffers mem.new sums.new outs.new replies.new ≡ (run_list (setting (flat_book columns.now rows.now used.now count) r (plan a b d) w h) numbers.now (buffers mem.old sums.old outs.old replies.old)).content }
    ensures kept { SumsDemanded (run_list (setting (flat_book columns.now rows.now used.now count) r (plan a b d) w h) numbers.now (buffers mem.old sums.old outs.old replies.old)).answer (setting (flat_book columns.now rows.now used.now count) r (plan a b d) w h) numbers.now (buffers mem.old sums.old outs.old replies.old) (buffers mem.new sums.new outs.new replies.new) }
{
    let book = book_of(columns, rows, used, count);
    let listed = run_list(
        book,
        r,
        plan_of(a, b, d),
        w,
        h,
        mem,
        sums,
        numbers,
        outs,
        replies,
    );
    tell_listed(listed, answer)
}

// Finds the plan with the fewest banks within the limit for a record given as flat arrays, and makes a list of calls under it.
#[unsafe(no_mangle)]
pub extern "C" fn bankplan_find_and_run(
    columns: &[i8; 1024],
    rows: &[i8; 1024],
    used: &[usize; 16],
    count: usize,
    r: u32,
    limit: u32,
    w: u32,
    h: u32,
    mem: &mut [u16],
    sums: &mut [u64],
    numbers: &[u64],
    outs: &mut [u16],
    replies: &mut [u64],
    answer: &mut [u64; 12],
) -> u64
    ensures told { Tells plan_row (of_found_run (find_and_run (flat_book columns.now rows.now used.now count) r limit w h numbers.now (buffers mem.old sums.old outs.old replies.old)).answer) answer.old answer.new result }
    ensures left { buffers mem.new sums.new outs.new replies.new ≡ (find_and_run (flat_book columns.now rows.now used.now count) r limit w h numbers.now (buffers mem.old sums.old outs.old replies.old)).content }
    ensures demand { Demanded (find_and_run (flat_book columns.now rows.now used.now count) r limit w h numbers.now (buffers mem.old sums.old outs.old replies.old)).answer (flat_book columns.now rows.now used.now count) r w h numbers.now (buffers mem.old sums.old outs.old replies.old) (buffers mem.new sums.new outs.new replies.new) }
{
    let book = book_of(columns, rows, used, count);
    let found = find_and_run(book, r, limit, w, h, mem, sums, numbers, outs, replies);
    tell_found(found, answer)
}
