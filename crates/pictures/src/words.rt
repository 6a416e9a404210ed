// Store a word, which keeps its bank's sum, and load one.
ghost use Rattle.std.specs.Prelude.{◌≡◌};
ghost use Rattle.scope.specs.Plans.{at};
ghost use Rattle.scope.specs.Calls.{lent, store, load};

use crate::places::{lent_depth, word_place};
use crate::sums::exchange;
use scope::{Plan, Refusal};

// Stores x at the pixel (i, j) and keeps its bank's sum, or 11, 12, 13, 14 and the memory and the sums as they were.
pub fn store(
    p: Plan,
    w: u32,
    h: u32,
    mem: &mut [u16],
    sums: &mut [u64],
    i: i16,
    j: i16,
    x: u16,
) -> Result<(), Refusal>
    ensures answer { result ≡ (store p w h (lent mem.old sums.old) (at i j) x).answer }
    ensures left { lent mem.new sums.new ≡ (store p w h (lent mem.old sums.old) (at i j) x).content }
{
    lent_depth(p, w, h, mem.len(), sums.len())?;
    let at = p.place(w, h, i, j)?;
    let n = at.bank as usize;
    let k = at.word as usize;
    let old = mem[k];
    mem[k] = x;
    sums[n] = exchange(sums[n], old, x);
    Ok(())
}

// The word at the pixel (i, j), or 11, 12, 13, 14.
#[inline(always)]
pub fn load(p: Plan, w: u32, h: u32, mem: &[u16], i: i16, j: i16) -> Result<u16, Refusal>
    ensures { result ≡ load p w h mem.now (at i j) }
{
    let k = word_place(p, w, h, mem.len(), i, j)?;
    Ok(mem[k as usize])
}
