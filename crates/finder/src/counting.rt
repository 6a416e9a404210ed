// Plans tried for r by counting the pixels to a bank.
ghost use Rattle.std.specs.Prelude.{◌≡◌, not, ◌*◌, min, ◌<◌, get_or};
ghost use Rattle.scope.specs.Search.{some_below};
ghost use Rattle.scope.specs.Cycles.{suits_for};
ghost use Rattle.finder.specs.Counting.{pattern_in, CellTest};

use crate::bank_tables::Tables;
use crate::cells::Cells;
use crate::finding::Trial;
use scope::{Plan, Refusal};

impl Cells {
    // How many pixels pattern n has.
    fn pixels_in(&self, n: usize) -> usize
        requires { n < 16 }
        ensures { result ≡ min (get_or self.now.entries (65 * n) 0) 64 }
    {
        (self.entries[65 * n] as usize).min(64)
    }

    // Whether a bank has more than r pixels of pattern n; `counts` has how many of the pixels before are in each bank.
    fn pattern_crowded(&self, tables: &Tables, n: usize) -> bool
        requires { n < 16 }
        ensures { result ≡ not (suits_for self.now.r tables.now.tested.plan (pattern_in self.now.entries n)) }
    {
        let used = self.pixels_in(n);
        let mut counts = [0u8; 1024];
        for e in 0..used {
            let k = tables.bank(self.entries[65 * n + (e + 1)]);
            let count = counts[k];
            if self.r <= count {
                return true;
            }
            counts[k] = count + 1;
        }
        false
    }

    // Whether a bank has more than r pixels of one of the patterns.
    fn book_crowded(&self, tables: &Tables) -> bool
        ensures { result ≡ some_below 16 (λ n. not (suits_for self.now.r tables.now.tested.plan (pattern_in self.now.entries n))) }
    {
        (0..16).any(|n| self.pattern_crowded(tables, n))
    }
}

impl Trial for Cells {
    ghost tests = { λ cells. CellTest cells.r cells.entries };

    fn least_b(&self, a: usize, d: usize, below: usize) -> Result<Plan, Refusal> {
        let mut tables = Tables::of(a, d);
        let end = below.min(a);
        for b in 0..end {
            tables.slant(b);
            if !self.book_crowded(&tables) {
                return Ok(tables.tested.plan);
            }
        }
        Err(Refusal::NoPlan)
    }
}
