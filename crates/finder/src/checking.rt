// The check for r: the normal form of the vectors, then its clash with a pattern of the book, or its surplus over the least count for r.
ghost use Rattle.std.specs.Prelude.{◌≡◌, ◌≤◌};
ghost use Rattle.std.proofs.Math.Option.{none, map};
ghost use Rattle.scope.specs.Plans.{at, patterns};
ghost use Rattle.scope.specs.Cycles.{shortened, clash_for};
ghost use Rattle.scope.specs.Numbers.{record_test, places};
ghost use Rattle.scope.specs.Calls.{judged, check};
ghost use Rattle.finder.specs.Clashing.{met_at};

use crate::clash::{clash_in, class_positions};
use crate::cycles::book_outcome;
use crate::finding::least_count;
use lattice::normal_form;
use scope::{Book, CheckAnswer, Checked, Clash, Tested, Verdict};

// The clash for r of the lowest pattern that has one.
fn first_clash(p: Tested, book: Book, r: u8) -> Option<Clash>
    requires { (record_test book ≡ none) × (1 ≤ r) }
    ensures { result ≡ met_at (map shortened (clash_for r p.plan (patterns book))) }
{
    let count = book.count;
    for n in 0..count {
        let t = book.patterns[n];
        let met = clash_in(p, n, t, r);
        if let Some(_) = met {
            return met;
        }
    }
    None
}

// The surplus of a plan that suits over the least count for r.
fn surplus_of(p: Tested, book: Book, r: u8) -> Verdict
    requires { (record_test book ≡ none) × (1 ≤ r) × (r ≤ 8) × (clash_for r p.plan (patterns book) ≡ none) }
    ensures { result ≡ judged r (patterns book) p.plan }
{
    let least = least_count(book, r as u32);
    match least {
        Ok(n) => {
            let plan = p.plan;
            let surplus = (plan.banks() - n) as u32;
            Verdict::Suits(Checked { plan, surplus })
        }
        Err(f) => Verdict::Refused(f),
    }
}

// What is said of a plan for a book: the clash with its positions, or the surplus.
fn judge(p: Tested, book: Book, r: u8) -> CheckAnswer
    requires { (record_test book ≡ none) × (1 ≤ r) × (r ≤ 8) }
    ensures { (result.verdict ≡ judged r (patterns book) p.plan) × (result.positions ≡ places (clash_for r p.plan (patterns book))) }
{
    let met = first_clash(p, book, r);
    if let Some(c) = met {
        let n = c.pattern;
        let t = book.patterns[n];
        let positions = class_positions(p, t, c.earlier, r);
        return CheckAnswer {
            verdict: Verdict::Clashes(c),
            positions,
        };
    }
    CheckAnswer {
        verdict: surplus_of(p, book, r),
        positions: [0; 9],
    }
}

// The verdict for r on the vectors (x1, x2) and (y1, y2) for a book with the positions of its clash, or 2, 3, 4, 19, 20, 8, 9.
pub fn check(book: Book, r: u32, x1: i16, x2: i16, y1: i16, y2: i16) -> CheckAnswer
    ensures { (result.verdict ≡ (check book r (at x1 x2) (at y1 y2)).verdict) × (result.positions ≡ (check book r (at x1 x2) (at y1 y2)).positions) }
{
    let outcome = book_outcome(book, r);
    if let Err(f) = outcome {
        return CheckAnswer {
            verdict: Verdict::Refused(f),
            positions: [0; 9],
        };
    }
    let form = normal_form(x1, x2, y1, y2);
    match form {
        Ok(p) => judge(Tested { plan: p }, book, r as u8),
        Err(f) => CheckAnswer {
            verdict: Verdict::Refused(f),
            positions: [0; 9],
        },
    }
}
