// Document 01's formulas for a plan, past the tests of the calls: what these have shown stands in the types that the formulas are
// methods of.
ghost use Rattle.std.specs.Prelude.{◌≡◌, true, ◌&&◌, ◌+◌, ◌*◌, ◌/◌, ◌≤◌, ◌<◌, pos, nat_abs, ◌-ℤ◌, ◌*ℤ◌};
ghost use Rattle.integers.specs.Division.{floor_mod, ceil_div};
ghost use Rattle.scope.specs.Plans.{at, is_plan};
ghost use Rattle.scope.specs.Banks.{bank_of, inside, across, depth_of, address_of, word_of};
ghost use Rattle.scope.specs.Numbers.{is_side};
ghost use Rattle.scope.specs.Calls.{locate};

use crate::{Place, Plan, Refusal};
use integers::{quotient, remainder};

// A plan as defined: past 11.
#[derive(Clone, Copy)]
pub struct Tested {
    pub plan: Plan,
    pub ghost is: { is_plan plan ≡ true },
}

// Such a plan on a picture of width w and height h that can be: past 12.
#[derive(Clone, Copy)]
pub(crate) struct Layout {
    pub(crate) tested: Tested,
    pub(crate) w: u32,
    pub(crate) h: u32,
    ghost sides: { is_side w && is_side h ≡ true },
}

// The pixel in column i and row j of such a picture: past 14.
#[derive(Clone, Copy)]
pub(crate) struct Spot {
    pub(crate) layout: Layout,
    pub(crate) i: i16,
    pub(crate) j: i16,
    ghost there: { inside layout.w layout.h (at i j) ≡ true },
}

// Whether a picture can have these sides.
#[tactic(auto, unfolding(crate::specs::Numbers::is_side))]
pub(crate) fn are_sides(w: u32, h: u32) -> bool
    ensures { result ≡ (is_side w && is_side h) }
{
    1 <= w && w <= 4096 && 1 <= h && h <= 4096
}

// Whether a picture with these sides has the pixel.
#[tactic(auto, using(crate::proofs::PlanFacts::fits_within, crate::proofs::PlanFacts::below_zero), unfolding(crate::specs::Banks::inside, crate::specs::Plans::at))]
pub(crate) fn is_inside(w: u32, h: u32, i: i16, j: i16) -> bool
    ensures { result ≡ inside w h (at i j) }
{
    0 <= i && (i as u32) < w && 0 <= j && (j as u32) < h
}

// n/k rounded down: every division of an address.
fn divided(n: u32, k: u32) -> u32
    requires { (n ≤ 65535) × (1 ≤ k) × (k ≤ 1024) }
    ensures { result ≡ n / k }
{
    n / k
}

// n/k rounded up, for a side n.
fn rounded_up(n: u32, k: u32) -> u32
    requires { (n ≤ 4096) × (1 ≤ k) × (k ≤ 1024) }
    ensures { result ≡ ceil_div n k }
{
    divided(n + (k - 1), k)
}

impl Tested {
    // The bank of column i in row r of the strip q. b × q is at most 1023 × 2^15 either way, so i - b × q fits 32 bits.
    fn bank_in(self, i: i16, q: i32, r: u32) -> u64
        requires { (nat_abs q ≤ 32768) × (r < self.plan.d) }
        ensures { result ≡ r * self.plan.a + floor_mod (i -ℤ pos self.plan.b *ℤ q) self.plan.a }
    {
        let p = self.plan;
        let c = remainder(i as i32 - p.b as i32 * q, (p.a - 1) as u16);
        (r * p.a + c) as u64
    }

    // The bank of the pixel in column i and row j.
    pub fn bank_number(self, i: i16, j: i16) -> u64
        ensures { result ≡ bank_of self.plan (at i j) }
    {
        let p = self.plan;
        let top = (p.d - 1) as u16;
        let q = quotient(j as i32, top);
        let r = remainder(j as i32, top);
        self.bank_in(i, q, r)
    }
}

impl Layout {
    // The words of a bank.
    pub(crate) fn depth_number(self) -> u64
        ensures { result ≡ depth_of self.tested.plan self.w self.h }
    {
        let p = self.tested.plan;
        (rounded_up(self.w, p.a) * rounded_up(self.h, p.d)) as u64
    }

    // The address of column i in the strip q.
    fn address_in(self, i: u32, q: u32) -> u64
        requires { (i < 4096) × (q < 4096) }
        ensures { result ≡ q * across self.tested.plan self.w + i / self.tested.plan.a }
    {
        let p = self.tested.plan;
        (q * rounded_up(self.w, p.a) + divided(i, p.a)) as u64
    }

    // The pixel of bank k and address i, or 15. Before the last test its column and row are below the sides rounded up to whole
    // blocks.
    pub(crate) fn reverse_map(self, k: u64, i: u64) -> Result<(i16, i16), Refusal>
        ensures { result ≡ locate self.tested.plan self.w self.h k i }
    {
        let p = self.tested.plan;
        let a = p.a;
        let b = p.b;
        let d = p.d;
        if p.banks() <= k {
            return Err(Refusal::Cell);
        }
        if self.depth_number() <= i {
            return Err(Refusal::Cell);
        }
        let across = rounded_up(self.w, a);
        let bank = k as u32;
        let address = i as u32;
        let q = address / across;
        let column = (address % across * a + (bank % a + b * q) % a) as i16;
        let row = (q * d + bank / a) as i16;
        if !is_inside(self.w, self.h, column, row) {
            return Err(Refusal::Cell);
        }
        Ok((column, row))
    }
}

impl Spot {
    // Its address.
    pub(crate) fn address_number(self) -> u64
        ensures { result ≡ address_of self.layout.tested.plan self.layout.w self.layout.h (at self.i self.j) }
    {
        let p = self.layout.tested.plan;
        self.layout
            .address_in(self.i as u32, divided(self.j as u32, p.d))
    }

    // Its bank, and its word: its bank and address, with one division of the row for both.
    pub(crate) fn place_numbers(self) -> Place
        ensures { (result.bank ≡ bank_of self.layout.tested.plan (at self.i self.j)) × (result.word ≡ word_of self.layout.tested.plan self.layout.w self.layout.h (at self.i self.j)) }
    {
        let p = self.layout.tested.plan;
        let i = self.i;
        let y = self.j as u32;
        let q = divided(y, p.d);
        let bank = self.layout.tested.bank_in(i, q as i32, y - q * p.d);
        let word = bank * self.layout.depth_number() + self.layout.address_in(i as u32, q);
        Place { bank, word }
    }
}
