// The sums of the banks, kept in a second lent buffer: what a store makes of one, all of them afresh, and one of them read.
ghost use Rattle.std.specs.Prelude.{◌≡◌, ◌*◌, ◌≤◌, length};
ghost use Rattle.scope.specs.Banks.{exchanged};
ghost use Rattle.scope.specs.Calls.{lent, make_sums, read_sum};
ghost use Rattle.pictures.specs.Places.{sums_over};

use crate::banks::sum_words;
use crate::places::lent_depth;
use scope::{Plan, Refusal};
use std::num::{wrapping_add_u64, wrapping_sub_u64};

// A sum without the old word and with the new one, modulo 2^64.
pub(crate) fn exchange(sum: u64, old: u16, new: u16) -> u64
    ensures { result ≡ exchanged sum old new }
{
    wrapping_add_u64(wrapping_sub_u64(sum, old as u64), new as u64)
}

// Puts the sums of n banks of `deep` words each at the start of the sums.
fn put_sums(n: usize, deep: usize, mem: &[u16], sums: &mut [u64])
    requires { (n * deep ≤ length mem.now) × (n ≤ length sums.old) × (n ≤ 1024) × (deep ≤ 16777216) }
    ensures { sums.new ≡ sums_over n deep mem.now sums.old }
{
    for k in 0..n {
        let start = k * deep;
        let end = (k + 1) * deep;
        sums[k] = sum_words(&mem[start..end]);
    }
}

// Makes the sums of all banks afresh from the memory, or 11, 12, 13 and the sums as they were.
pub fn make_sums(p: Plan, w: u32, h: u32, mem: &[u16], sums: &mut [u64]) -> Result<(), Refusal>
    ensures answer { result ≡ (make_sums p w h (lent mem.now sums.old)).answer }
    ensures left { lent mem.now sums.new ≡ (make_sums p w h (lent mem.now sums.old)).content }
{
    let deep = lent_depth(p, w, h, mem.len(), sums.len())?;
    put_sums(p.banks() as usize, deep as usize, mem, sums);
    Ok(())
}

// The sum that is kept of bank k, or 11, 13, 15.
pub fn read_sum(p: Plan, sums: &[u64], k: u64) -> Result<u64, Refusal>
    ensures { result ≡ read_sum p sums.now k }
{
    if !p.is_plan() {
        return Err(Refusal::NotPlan);
    }
    if (sums.len() as u64) < p.banks() {
        return Err(Refusal::Memory);
    }
    if p.banks() <= k {
        return Err(Refusal::Cell);
    }
    Ok(sums[k as usize])
}
