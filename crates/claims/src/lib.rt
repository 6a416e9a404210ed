// Demand 3 about the code: the finder, then a list of calls under its plan. proofs/ has every promise, kept in one value.
#![tactic(auto)]

ghost use Rattle.std.specs.Prelude.{◌≡◌};
ghost use Rattle.pictures.specs.Lists.{buffers};
ghost use Rattle.claims.specs.Demanded.{find_and_run, Demanded};

use finder::find;
use pictures::{ListFault, run_list};
use scope::{Book, Plan, Refusal};

// Finds the plan for r with the fewest banks within the limit, and makes a list of calls for r under it, in the numbers of `run_list`:
// the plan and what came of the list, or the finder's refusal, and then nothing was changed.
pub fn find_and_run(
    book: Book,
    r: u32,
    limit: u32,
    w: u32,
    h: u32,
    mem: &mut [u16],
    sums: &mut [u64],
    numbers: &[u64],
    outs: &mut [u16],
    rows: &mut [u64],
) -> Result<(Plan, Result<(), ListFault>), Refusal>
    ensures answer { result ≡ (find_and_run book r limit w h numbers.now (buffers mem.old sums.old outs.old rows.old)).answer }
    ensures left { buffers mem.new sums.new outs.new rows.new ≡ (find_and_run book r limit w h numbers.now (buffers mem.old sums.old outs.old rows.old)).content }
    ensures demand { Demanded result book r w h numbers.now (buffers mem.old sums.old outs.old rows.old) (buffers mem.new sums.new outs.new rows.new) }
{
    let plan = find(book, r, limit)?;
    Ok((
        plan,
        run_list(book, r, plan, w, h, mem, sums, numbers, outs, rows),
    ))
}
