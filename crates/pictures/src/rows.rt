// The reply to a call of a list, in twelve numbers.
ghost use Rattle.std.specs.Prelude.{◌≡◌, ℕ, suc, ◌≤◌, List, [], ◌∷◌, length, take};
ghost use Rattle.scope.specs.Banks.{over_start};
ghost use Rattle.scope.specs.Numbers.{number_of, place_of, clash_of, turned_down, with_positions, of_result, of_fetch};
ghost use Rattle.pictures.specs.Lists.{clash_numbers, answer_numbers, twelve};

use scope::{FetchAnswer, Refusal, Row, row_of};

// A refusal's number, its place and, of 10, its clash.
fn refusal_row(r: Refusal) -> [u64; 12]
    ensures { result ≡ twelve (number_of r ∷ place_of r ∷ clash_numbers (clash_of r)) }
{
    let told = row_of(r);
    let mut row = [0u64; 12];
    row[0] = told.number;
    row[1] = told.place;
    if let Some(c) = told.clash {
        row[2] = c.pattern as u64;
        row[3] = c.earlier as u64;
        row[4] = c.later as u64;
    }
    row
}

// A value that a reply tells in numbers.
pub(crate) trait Value {
    ghost numbers: { Self → List ℕ };

    // 0 and the numbers.
    fn row(self) -> [u64; 12]
        ensures { result ≡ twelve (0 ∷ numbers self) };
}

impl Value for () {
    ghost numbers = { λ x. [] };

    #[tactic(auto, unfolding(crate::specs::Lists::twelve))]
    fn row(self) -> [u64; 12] {
        [0u64; 12]
    }
}

impl Value for u64 {
    ghost numbers = { λ n. n ∷ [] };

    #[tactic(auto, unfolding(crate::specs::Lists::twelve))]
    fn row(self) -> [u64; 12] {
        let mut row = [0u64; 12];
        row[1] = self;
        row
    }
}

impl Value for u16 {
    ghost numbers = { λ n. n ∷ [] };

    fn row(self) -> [u64; 12] {
        (self as u64).row()
    }
}

// A value, or the refusal.
pub(crate) fn answer_row<T: Value>(a: Result<T, Refusal>) -> [u64; 12]
    ensures { result ≡ twelve (answer_numbers T.numbers (of_result a)) }
{
    match a {
        Ok(x) => x.row(),
        Err(r) => refusal_row(r),
    }
}

// A refusal's number, its place and, of 10, its clash with the first r + 1 of these positions.
fn clash_row(f: Refusal, positions: [usize; 9], r: u32) -> [u64; 12]
    ensures { (values : ℕ → List ℕ) → result ≡ twelve (answer_numbers values (with_positions (take (suc r) positions) (turned_down f))) }
{
    let told = row_of(f);
    let mut row = [0u64; 12];
    row[0] = told.number;
    row[1] = told.place;
    if let Some(c) = told.clash {
        row[2] = c.pattern as u64;
        let count = (r as usize + 1).min(9);
        for e in 0..count {
            row[3 + e] = positions[e] as u64;
        }
    }
    row
}

// A fetch's number, or the refusal with its clash for r.
pub(crate) fn fetched_row(a: FetchAnswer, r: u32) -> [u64; 12]
    ensures { result ≡ twelve (answer_numbers (λ n. n ∷ []) (of_fetch r a)) }
{
    match a.counted {
        Ok(x) => x.row(),
        Err(f) => clash_row(f, a.positions, r),
    }
}

// Puts a row at the start of the output.
pub(crate) fn put_row(row: [u64; 12], out: &mut [u64])
    requires { (length row ≡ 12) × (12 ≤ length out.old) }
    ensures { out.new ≡ over_start row out.old }
{
    out[..12].copy_from_slice(&row);
}
