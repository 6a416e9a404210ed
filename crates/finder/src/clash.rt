// The clash for r of one pattern under a plan, and its positions.
ghost use Rattle.std.specs.Prelude.{◌≡◌, ◌∷◌, ◌≤◌, ◌<◌, take, replicate};
ghost use Rattle.std.proofs.Math.Option.{map};
ghost use Rattle.scope.specs.Plans.{at, pixels};
ghost use Rattle.scope.specs.Cycles.{shortened, followers, clash_in_for};
ghost use Rattle.scope.specs.Banks.{bank_of, over_start};
ghost use Rattle.book.specs.Scan.{outcome_of};
ghost use Rattle.finder.specs.Clashing.{met_at, single_test, suits_outcome, suits_positions};

use scope::{Clash, Pattern, Plan, Refusal, Tested};

// The bank of a pattern's pixel under a plan.
pub(crate) fn bank_in(p: Tested, i: i8, j: i8) -> usize
    ensures { (result ≡ bank_of p.plan (at i j)) × (result < 1024) }
{
    p.bank_number(i as i16, j as i16) as usize
}

// The clash for r of pattern n, whose record is t: its first two positions. The pixels are taken from the last to the first; `next`
// has for each bank the position of the one taken last, 0 for none: position 0 is taken last of all. `held` has for each position
// that was taken how many its bank has from there on.
pub(crate) fn clash_in(p: Tested, n: usize, t: Pattern, r: u8) -> Option<Clash>
    requires { (t.used ≤ 64) × (1 ≤ r) }
    ensures { result ≡ met_at (map shortened (clash_in_for r p.plan n (pixels t))) }
{
    let columns = t.columns;
    let rows = t.rows;
    let mut next = [0u8; 1024];
    let mut held = [0u8; 64];
    let mut met = None;
    for e in (0..t.used).rev() {
        let k = bank_in(p, columns[e], rows[e]);
        let later = next[k] as usize;
        let count = held[later];
        if r <= count {
            met = Some(Clash {
                pattern: n,
                earlier: e,
                later,
            });
        }
        held[e] = count + 1;
        next[k] = e as u8;
    }
    met
}

// The positions of the class of pixel e from e on, at most r + 1 of them, in nine places, then 0.
pub(crate) fn class_positions(p: Tested, t: Pattern, e: usize, r: u8) -> [usize; 9]
    requires { (t.used ≤ 64) × (e < t.used) × (r ≤ 8) }
    ensures { result ≡ over_start (e ∷ take r (followers p.plan (pixels t) e)) (replicate 9 0) }
{
    let columns = t.columns;
    let rows = t.rows;
    let last = r as usize;
    let k = bank_in(p, columns[e], rows[e]);
    let mut positions = [0usize; 9];
    positions[0] = e;
    let mut m = 0;
    for l in e + 1..t.used {
        if m < last {
            if bank_in(p, columns[l], rows[l]) == k {
                m += 1;
                positions[m] = l;
            }
        }
    }
    positions
}

// Whether a plan suits a pattern for r, and beside it the positions of the clash in nine places, the form of `FetchAnswer`.
#[derive(Clone, Copy)]
pub struct Suited {
    pub outcome: Result<(), Refusal>,
    pub positions: [usize; 9],
}

// 2 for the pixel count of a pattern, 20 for r, 11.
fn single_outcome(p: Plan, t: Pattern, r: u32) -> Result<(), Refusal>
    ensures { result ≡ outcome_of (single_test p t r) }
{
    let used = t.used;
    if used == 0 {
        return Err(Refusal::Count(0));
    }
    if 64 < used {
        return Err(Refusal::Count(0));
    }
    if r == 0 {
        return Err(Refusal::Cycles);
    }
    if 8 < r {
        return Err(Refusal::Cycles);
    }
    if !p.is_plan() {
        return Err(Refusal::NotPlan);
    }
    Ok(())
}

// Whether a plan suits the pattern t, number n, for r, or 2 for its pixel count, 20, 11, 10.
pub fn suits_answer(p: Plan, n: usize, t: Pattern, r: u32) -> Suited
    ensures { (result.outcome ≡ suits_outcome p n t r) × (result.positions ≡ suits_positions p n t r) }
{
    let outcome = single_outcome(p, t, r);
    let mut positions = [0usize; 9];
    if let Err(_) = outcome {
        return Suited { outcome, positions };
    }
    let tested = Tested { plan: p };
    let met = clash_in(tested, n, t, r as u8);
    if let Some(c) = met {
        positions = class_positions(tested, t, c.earlier, r as u8);
        return Suited {
            outcome: Err(Refusal::Unsuited(c)),
            positions,
        };
    }
    Suited { outcome, positions }
}
