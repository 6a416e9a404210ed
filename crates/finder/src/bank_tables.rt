// The bank of a pixel by three tables: what its column and its row, 0 to 31, add to it under a plan.
ghost use Rattle.std.specs.Prelude.{◌≡◌, ◌⊎◌, ◌+◌, ◌*◌, ◌%◌, ◌≤◌, ◌<◌};
ghost use Rattle.scope.specs.Plans.{plan};
ghost use Rattle.scope.specs.Banks.{bank_of};
ghost use Rattle.finder.specs.Counting.{cell_pixel, lanes_of, bases_of, ShiftsOf};

use scope::{Plan, Tested};

// The tables of a plan.
#[derive(Drop)]
pub(crate) struct Tables {
    pub(crate) tested: Tested,
    lanes: [u16; 32],
    bases: [u16; 32],
    shifts: [u16; 32],
    ghost lanes_are: { lanes ≡ lanes_of tested.plan.a },
    ghost bases_are: { bases ≡ bases_of tested.plan.a tested.plan.d },
    ghost shifts_are: { ∥ ShiftsOf tested.plan.a tested.plan.b tested.plan.d shifts ∥₁ },
}

// x + 1 modulo m.
fn next_below(m: usize, x: usize) -> usize
    requires { (x < m) × (m ≤ 1024) }
    ensures { result ≡ (x + 1) % m }
{
    let y = x + 1;
    if y == m { 0 } else { y }
}

// The lane of each column: its remainder by a.
fn lanes_of(a: usize) -> [u16; 32]
    requires { (1 ≤ a) × (a ≤ 1024) }
    ensures { result ≡ lanes_of a }
{
    let mut lanes = [0; 32];
    let mut x = 0;
    for c in 0..32 {
        lanes[c] = x as u16;
        x = next_below(a, x);
    }
    lanes
}

// The first bank of each row.
fn bases_of(a: usize, d: usize) -> [u16; 32]
    requires { (1 ≤ a) × (1 ≤ d) × (a * d ≤ 1024) }
    ensures { result ≡ bases_of a d }
{
    let mut bases = [0; 32];
    let mut row = 0;
    for j in 0..32 {
        bases[j] = (row * a) as u16;
        row = next_below(d, row);
    }
    bases
}

// The shift of the strip after one with shift x: b less, modulo a.
fn next_shift(a: usize, b: usize, x: usize) -> usize
    requires { (b < a) × (x < a) × (a ≤ 1024) }
    ensures { (result < a) × ((result + b ≡ x) ⊎ (result + b ≡ x + a)) }
{
    if b <= x { x - b } else { x + a - b }
}

// How far each row moves the lanes. The d rows of a strip have one shift.
fn shifts_of(a: usize, b: usize, d: usize) -> [u16; 32]
    requires { (b < a) × (a ≤ 1024) × (1 ≤ d) }
    ensures { ShiftsOf a b d result }
{
    let mut shifts = [0; 32];
    let mut x = 0;
    let mut row = 0;
    for j in 0..32 {
        shifts[j] = x as u16;
        row += 1;
        if row == d {
            row = 0;
            x = next_shift(a, b, x);
        }
    }
    shifts
}

impl Tables {
    // Those of the plan a, 0, d.
    pub(crate) fn of(a: usize, d: usize) -> Tables
        requires { (1 ≤ a) × (1 ≤ d) × (a * d ≤ 1024) }
        ensures { result.tested.plan ≡ plan a 0 d }
    {
        let p = Plan {
            a: a as u32,
            b: 0,
            d: d as u32,
        };
        Tables {
            tested: Tested { plan: p },
            lanes: lanes_of(a),
            bases: bases_of(a, d),
            shifts: [0; 32],
        }
    }

    // Goes over to the plan with this b: the shifts alone are others.
    pub(crate) fn slant(&mut self, b: usize)
        requires { b < self.old.tested.plan.a }
        ensures { self.new.tested.plan ≡ plan self.old.tested.plan.a b self.old.tested.plan.d }
    {
        let p = self.tested.plan;
        self.tested = Tested {
            plan: Plan { b: b as u32, ..p },
        };
        self.shifts = shifts_of(p.a as usize, b, p.d as usize);
    }

    // The bank of a cell.
    pub(crate) fn bank(&self, cell: u16) -> usize
        ensures { (result ≡ bank_of self.now.tested.plan (cell_pixel cell)) × (result < 1024) }
    {
        let c = (cell % 32) as usize;
        let j = (cell / 32 % 32) as usize;
        let a = self.tested.plan.a as usize;
        let x = self.lanes[c] as usize + self.shifts[j] as usize;
        let y = if x < a { x } else { x - a };
        self.bases[j] as usize + y
    }
}
