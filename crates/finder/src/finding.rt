// The finder. It tries the plans in order: by the marks for r = 1, and by the cells for any other r.
ghost use Rattle.std.specs.Prelude.{◌≡◌, ◌*◌, ◌≤◌, Bool};
ghost use Rattle.std.proofs.Math.Option.{none};
ghost use Rattle.scope.specs.Plans.{patterns};
ghost use Rattle.scope.specs.Finding.{first_with, least_of};
ghost use Rattle.scope.specs.Numbers.{record_test};
ghost use Rattle.scope.specs.Cycles.{least_plan_for};
ghost use Rattle.scope.specs.Calls.{found, find, fewest};
ghost use Rattle.scope.specs.declared.Plan.{Plan};
ghost use Rattle.finder.specs.Searching.{least_below, Searched};

use crate::cells::Cells;
use crate::marks::Marks;
use book::record_outcome;
use scope::{Book, Plan, Refusal};

// What plans are tried on.
pub(crate) trait Trial {
    // The tests of plans that it answers by: those of the books that it was made of.
    ghost tests: { Self → (Plan → Bool) → Type 0 };

    // Of the suiting plans with this a and d and a b below `below` the one with least b.
    fn least_b(&self, a: usize, d: usize, below: usize) -> Result<Plan, Refusal>
        requires { (1 ≤ a) × (1 ≤ d) × (a * d ≤ 1024) }
        ensures { Searched (tests self.now) (λ test. least_below test (a * d) d below) result };
}

// Of the suiting plans with n banks the one with least b, then least d. It goes by d, and a later plan replaces an earlier one only
// with a smaller b.
fn first_with<T: Trial>(trial: &T, n: usize) -> Result<Plan, Refusal>
    requires { n ≤ 1024 }
    ensures { Searched (T.tests trial.now) (λ test. first_with test n) result }
{
    let mut best = Err(Refusal::NoPlan);
    let mut below = n;
    for d in 1..=n {
        if n % d == 0 {
            let p = trial.least_b(n / d, d, below);
            if let Ok(q) = p {
                best = p;
                below = q.b as usize;
            }
        }
    }
    best
}

// Of the suiting plans with at most `limit` banks the one with the fewest, or 7. A call of its own, so that the caller's stack does
// not hold both tables and what both searches need.
#[inline(never)]
fn least_plan<T: Trial>(trial: &T, limit: usize) -> Result<Plan, Refusal>
    requires { limit ≤ 1024 }
    ensures { Searched (T.tests trial.now) (λ test. least_of test limit) result }
{
    for n in 1..=limit {
        let p = first_with(trial, n);
        if let Ok(_) = p {
            return p;
        }
    }
    Err(Refusal::NoPlan)
}

// The plan for r of a legal book with the fewest banks within the limit, or 7.
fn plan_for(book: Book, r: u8, limit: usize) -> Result<Plan, Refusal>
    requires { (record_test book ≡ none) × (limit ≤ 1024) }
    ensures { result ≡ found (least_plan_for r (patterns book) limit) }
{
    if r == 1 {
        let mut marks = Marks { cells: [0; 2017] };
        marks.mark_book(&book);
        least_plan(&marks, limit)
    } else {
        let mut cells = Cells {
            entries: [0; 1040],
            r,
        };
        cells.put_book(&book);
        least_plan(&cells, limit)
    }
}

// The plan for r with the fewest banks within the limit, of several the one with least b, then least d; or 2, 3, 4, 19, 6, 20, 7.
pub fn find(book: Book, r: u32, limit: u32) -> Result<Plan, Refusal>
    ensures { result ≡ find book r limit }
{
    record_outcome(book)?;
    if limit == 0 {
        return Err(Refusal::Limit);
    }
    if 1024 < limit {
        return Err(Refusal::Limit);
    }
    if r == 0 {
        return Err(Refusal::Cycles);
    }
    if 8 < r {
        return Err(Refusal::Cycles);
    }
    plan_for(book, r as u8, limit as usize)
}

// The least count for r of a book, the N of the finder's plan at limit 1024, or 2, 3, 4, 19, 20.
pub fn least_count(book: Book, r: u32) -> Result<u64, Refusal>
    ensures { result ≡ fewest book r }
{
    Ok(find(book, r, 1024)?.banks())
}
