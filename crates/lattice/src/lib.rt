// The normal form of two vectors.
#![tactic(auto)]

ghost use Rattle.std.specs.Prelude.{◌≡◌, suc, ◌≤◌, ◌<◌, pos};
ghost use Rattle.integers.specs.Division.{floor_mod};
ghost use Rattle.scope.specs.Plans.{at, determinant_size, upright, falling};
ghost use Rattle.scope.specs.Calls.{normal};

use integers::{gcd_of, remainder, size};
use scope::{Plan, Refusal};

// The determinant's size.
fn determinant_size(x1: i16, x2: i16, y1: i16, y2: i16) -> u64
    ensures { result ≡ determinant_size (at x1 x2) (at y1 y2) }
{
    (x1 as i64 * y2 as i64 - x2 as i64 * y1 as i64).unsigned_abs()
}

// The column modulo a of a vector turned so that its row is not negative.
fn upright_column(a: u64, x1: i16, x2: i16) -> u64
    requires { (0 < a) × (a ≤ 1024) }
    ensures { result ≡ floor_mod (upright (at x1 x2)).column a }
{
    let top = (a - 1) as u16;
    if x2 < 0 {
        remainder(-(x1 as i32), top) as u64
    } else {
        remainder(x1 as i32, top) as u64
    }
}

// Euclid's falling remainders of the rows p and q, the columns x and y carried along modulo a: the column of the vector whose
// row is the greatest common divisor.
fn falling_column(a: u64, x: u64, p: u64, y: u64, q: u64) -> u64
    requires { (0 < a) × (a ≤ 1024) × (x < a) × (y < a) × (p ≤ 32768) × (q ≤ 32768) }
    ensures { result ≡ floor_mod (falling (suc q) (at (pos x) (pos p)) (at (pos y) (pos q))).column a }
{
    if q == 0 {
        return x;
    }
    falling_column(a, y, q, (x + p / q * (a - y)) % a, p % q)
}

// The normal form of (x1, x2) and (y1, y2), or 8, 9.
pub fn normal_form(x1: i16, x2: i16, y1: i16, y2: i16) -> Result<Plan, Refusal>
    ensures { result ≡ normal (at x1 x2) (at y1 y2) }
{
    let n = determinant_size(x1, x2, y1, y2);
    if n == 0 {
        return Err(Refusal::Dependent);
    }
    if 1024 < n {
        return Err(Refusal::Large);
    }
    let p = size(x2);
    let q = size(y2);
    let d = gcd_of(p, q);
    let a = n / d;
    let x = upright_column(a, x1, x2);
    let y = upright_column(a, y1, y2);
    let b = falling_column(a, x, p, y, q);
    Ok(Plan {
        a: a as u32,
        b: b as u32,
        d: d as u32,
    })
}
