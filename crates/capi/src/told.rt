// Answers told in numbers.
ghost use Rattle.std.specs.Prelude.{◌≡◌, ℕ, suc, List, ◌∷◌, take};
ghost use Rattle.scope.specs.Numbers.{number_of, place_of, clash_of, of_result, of_check, of_fetch};
ghost use Rattle.pictures.specs.Lists.{clash_numbers};
ghost use Rattle.capi.specs.Told.{Tells, placed_at, plan_row, checked_row, number_row, pair_row, no_row, put_from, of_listed, of_found_run};

use integers::size;
use pictures::ListFault;
use scope::{CheckAnswer, Checked, FetchAnswer, Plan, Refusal, Verdict, row_of};

// A value that is told in numbers.
pub(crate) trait Told {
    ghost numbers: { Self → List ℕ };

    // Puts the numbers at the start of the array.
    fn put(self, answer: &mut [u64; 12])
        ensures { answer.new ≡ put_from 0 (numbers self) answer.old };
}

// Of what was only done, nothing is told.
impl Told for () {
    ghost numbers = { no_row };

    fn put(self, _answer: &mut [u64; 12]) {}
}

impl Told for u64 {
    ghost numbers = { number_row };

    fn put(self, answer: &mut [u64; 12]) {
        answer[0] = self;
    }
}

impl Told for u16 {
    ghost numbers = { number_row };

    fn put(self, answer: &mut [u64; 12]) {
        answer[0] = self as u64;
    }
}

impl Told for Plan {
    ghost numbers = { plan_row };

    fn put(self, answer: &mut [u64; 12]) {
        answer[0] = self.a as u64;
        answer[1] = self.b as u64;
        answer[2] = self.d as u64;
    }
}

impl Told for Checked {
    ghost numbers = { checked_row };

    fn put(self, answer: &mut [u64; 12]) {
        self.plan.put(answer);
        answer[3] = self.surplus as u64;
    }
}

// A pixel's column and row, without their signs.
impl Told for (i16, i16) {
    ghost numbers = { pair_row };

    fn put(self, answer: &mut [u64; 12]) {
        let (i, j) = self;
        let column = size(i);
        let row = size(j);
        answer[0] = column;
        answer[1] = row;
    }
}

// 0; the value's numbers go to the array.
fn tell_value<T: Told>(x: T, answer: &mut [u64; 12]) -> u64
    ensures { (result ≡ 0) × (answer.new ≡ put_from 0 (T.numbers x) answer.old) }
{
    x.put(answer);
    0
}

// A refusal's number; its place and its clash go to the array.
pub(crate) fn tell_refusal(r: Refusal, answer: &mut [u64; 12]) -> u64
    ensures { (result ≡ number_of r) × (answer.new ≡ put_from 0 (place_of r ∷ clash_numbers (clash_of r)) answer.old) }
{
    let row = row_of(r);
    answer[0] = row.place;
    if let Some(c) = row.clash {
        answer[1] = c.pattern as u64;
        answer[2] = c.earlier as u64;
        answer[3] = c.later as u64;
    }
    row.number
}

// A value, or the refusal.
pub(crate) fn tell<T: Told>(a: Result<T, Refusal>, answer: &mut [u64; 12]) -> u64
    ensures { Tells T.numbers (of_result a) answer.old answer.new result }
{
    match a {
        Ok(x) => tell_value(x, answer),
        Err(r) => tell_refusal(r, answer),
    }
}

// Puts the first r + 1 of a clash's nine positions behind its place and its pattern.
fn put_positions(positions: [usize; 9], r: u32, answer: &mut [u64; 12])
    ensures { answer.new ≡ put_from 2 (take (suc r) positions) answer.old }
{
    let count = (r as usize + 1).min(9);
    for e in 0..count {
        answer[2 + e] = positions[e] as u64;
    }
}

// A refusal's number; its place goes to the array and, of 10, its clash with the first r + 1 of these positions.
fn tell_clash(f: Refusal, positions: [usize; 9], r: u32, answer: &mut [u64; 12]) -> u64
    ensures { (result ≡ number_of f) × (answer.new ≡ put_from 0 (place_of f ∷ clash_numbers (placed_at (take (suc r) positions) (clash_of f))) answer.old) }
{
    let row = row_of(f);
    answer[0] = row.place;
    if let Some(c) = row.clash {
        answer[1] = c.pattern as u64;
        put_positions(positions, r, answer);
    }
    row.number
}

// A checked plan's numbers and its surplus, or the clash for r as refusal 10, or the refusal.
pub(crate) fn tell_check(a: CheckAnswer, r: u32, answer: &mut [u64; 12]) -> u64
    ensures { Tells checked_row (of_check r a) answer.old answer.new result }
{
    match a.verdict {
        Verdict::Suits(c) => tell_value(c, answer),
        Verdict::Clashes(c) => tell_clash(Refusal::Unsuited(c), a.positions, r, answer),
        Verdict::Refused(f) => tell_clash(f, a.positions, r, answer),
    }
}

// A fetch's number, or the refusal with its clash for r.
pub(crate) fn tell_fetch(a: FetchAnswer, r: u32, answer: &mut [u64; 12]) -> u64
    ensures { Tells number_row (of_fetch r a) answer.old answer.new result }
{
    match a.counted {
        Ok(n) => tell_value(n, answer),
        Err(f) => tell_clash(f, a.positions, r, answer),
    }
}

// A list that was made, or 255 and the place of numbers that are no call's, or 16.
pub(crate) fn tell_listed(l: Result<(), ListFault>, answer: &mut [u64; 12]) -> u64
    ensures { Tells no_row (of_listed l) answer.old answer.new result }
{
    match l {
        Ok(()) => 0,
        Err(ListFault::NotCalls(k)) => {
            answer[0] = k;
            255
        }
        Err(ListFault::Short) => {
            answer[0] = 0;
            16
        }
    }
}

// The plan's numbers where the list under it was made; else what was wrong with the list, or the finder's refusal.
pub(crate) fn tell_found(
    r: Result<(Plan, Result<(), ListFault>), Refusal>,
    answer: &mut [u64; 12],
) -> u64
    ensures { Tells plan_row (of_found_run r) answer.old answer.new result }
{
    match r {
        Ok((p, l)) => {
            let number = tell_listed(l, answer);
            if number == 0 {
                p.put(answer);
            }
            number
        }
        Err(q) => tell_refusal(q, answer),
    }
}
