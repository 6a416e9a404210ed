// The reduction by itself, for the tests alone: they call it on numbers that no call of the library reaches, and read its
// machine code.
#![tactic(auto)]

ghost use Rattle.std.specs.Prelude.{◌≡◌, ◌+◌};
ghost use Rattle.integers.specs.Division.{floor_div, floor_mod};

use integers::{quotient, remainder};

// z mod (top + 1), from 0 to top.
#[unsafe(no_mangle)]
pub extern "C" fn reduction_remainder(z: i32, top: u16) -> u32
    ensures { result ≡ floor_mod z (top + 1) }
{
    remainder(z, top)
}

// z/(top + 1) rounded down.
#[unsafe(no_mangle)]
pub extern "C" fn reduction_quotient(z: i32, top: u16) -> i32
    ensures { result ≡ floor_div z (top + 1) }
{
    quotient(z, top)
}
