// Whole numbers at machine widths: the greatest common divisor, and signed numbers divided by positive ones.
#![tactic(auto)]

ghost use Rattle.std.specs.Prelude.{◌≡◌, ◌+◌, ◌<◌, pos, nat_abs, ◌+ℤ◌};
ghost use Rattle.std.specs.Int.Signed.{mag};
ghost use Rattle.integers.specs.Division.{floor_div, floor_mod};
ghost use Rattle.integers.specs.Gcd.{gcd};

// The greatest common divisor, by the falling remainders of Euclid.
pub fn gcd_of(a: u64, b: u64) -> u64
    ensures { result ≡ gcd a b }
{
    if b == 0 {
        return a;
    }
    gcd_of(b, a % b)
}

// z + 2^7, so that every 8-bit number is one from 0 to 2^8 - 1. This and `raised16` are public functions that docs/API.md names, so they
// stay; one function for both would take a trait that holds the 2^7 and the 2^15, and is no plainer than these two lines.
pub fn raised8(z: i8) -> u64
    ensures { (pos result ≡ z +ℤ pos 128) × (result < 256) }
{
    (z as i64 + 128) as u64
}

// z + 2^15, so that every 16-bit number is one from 0 to 2^16 - 1.
pub fn raised16(z: i16) -> u64
    ensures { (pos result ≡ z +ℤ pos 32768) × (result < 65536) }
{
    (z as i64 + 32768) as u64
}

// The sign bit, shifted down: -1 of a negative number, 0 of every other.
fn sign(z: i32) -> i32
    ensures { result ≡ floor_div z 2147483648 }
{
    z >> 31
}

// z mod (top + 1), the remainder from 0 to top, without a jump (document 02, Card 2: "It becomes arithmetic on the remainder"): the
// machine's remainder has z's sign, and the divisor is added where its sign bit is set. A divisor is given as the one less, so it
// is never 0.
pub fn remainder(z: i32, top: u16) -> u32
    ensures { result ≡ floor_mod z (top + 1) }
{
    let d = top as i32 + 1;
    let r = z % d;
    (r - sign(r) * d) as u32
}

// z/(top + 1) rounded down, without a jump: the machine's quotient, less 1 where its remainder is negative.
pub fn quotient(z: i32, top: u16) -> i32
    ensures { result ≡ floor_div z (top + 1) }
{
    let d = top as i32 + 1;
    z / d + sign(z % d)
}

// The amount of z without its sign.
pub fn size(z: i16) -> u64
    ensures { result ≡ nat_abs z }
{
    z.unsigned_abs() as u64
}
