// Clear a bank with its sum, and walk a bank, which is lent on as its own stretch of the memory.
ghost use Rattle.std.specs.Prelude.{◌≡◌, ◌+◌, ◌≤◌, length, replicate};
ghost use mathlib.Core.List.{foldr};
ghost use Rattle.scope.specs.Calls.{lent, clear, sum};

use crate::places::{bank_depth, lent_depth};
use scope::{Plan, Refusal};

// Puts 0 in every word.
fn clear_words(words: &mut [u16])
    ensures { words.new ≡ replicate (length words.old) 0 }
{
    words.fill(0);
}

// Clears bank k and its sum, or 11, 12, 13, 15 and the memory and the sums as they were.
pub fn clear(
    p: Plan,
    w: u32,
    h: u32,
    mem: &mut [u16],
    sums: &mut [u64],
    k: u64,
) -> Result<(), Refusal>
    ensures answer { result ≡ (clear p w h (lent mem.old sums.old) k).answer }
    ensures left { lent mem.new sums.new ≡ (clear p w h (lent mem.old sums.old) k).content }
{
    let deep = lent_depth(p, w, h, mem.len(), sums.len())?;
    if p.banks() <= k {
        return Err(Refusal::Cell);
    }
    let start = (k * deep) as usize;
    let end = ((k + 1) * deep) as usize;
    clear_words(&mut mem[start..end]);
    sums[k as usize] = 0;
    Ok(())
}

// The exact sum of at most 2^24 words.
pub(crate) fn sum_words(words: &[u16]) -> u64
    requires { length words.now ≤ 16777216 }
    ensures { result ≡ foldr ◌+◌ 0 words.now }
{
    words.iter().map(|word| *word as u64).sum()
}

// The sum of bank k's words, or 11, 12, 13, 15.
pub fn sum(p: Plan, w: u32, h: u32, mem: &[u16], k: u64) -> Result<u64, Refusal>
    ensures { result ≡ sum p w h mem.now k }
{
    let deep = bank_depth(p, w, h, mem.len(), k)?;
    let start = (k * deep) as usize;
    let end = ((k + 1) * deep) as usize;
    Ok(sum_words(&mem[start..end]))
}
