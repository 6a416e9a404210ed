// The tests of a book's bytes, 1 to 5 and 19, left to right. Those of a record (record.rt) have no 1 and 5 and no places, and take
// their pixels from arrays: `pixel_outcome` is what both share, and one function over both would be no plainer.
ghost use Rattle.std.specs.Prelude.{◌≡◌, ◌≤◌, length};
ghost use Rattle.scope.specs.Search.{first};
ghost use Rattle.scope.specs.Books.{signed};
ghost use Rattle.scope.specs.Numbers.{pixel_read, pattern_read, bytes_test};
ghost use Rattle.book.specs.Scan.{outcome_of};

use crate::cells::pixel_outcome;
use scope::Refusal;

// The number that a byte is in two's complement.
pub(crate) fn signed_byte(b: u8) -> i8
    ensures { result ≡ signed b }
{
    b.cast_signed()
}

// The tests of `count` pixels that begin at place `at`.
fn pixels_outcome(s: &[u8], at: usize, count: usize) -> Result<(), Refusal>
    requires { (at ≤ length s.now) × (count ≤ 64) }
    ensures { result ≡ outcome_of (first 0 count (pixel_read s.now at)) }
{
    let mut least = [0u16; 65];
    for e in 0..count {
        let i = at + 2 * e;
        if s.len() - i < 2 {
            return Err(Refusal::Ends(s.len()));
        }
        pixel_outcome(
            signed_byte(s[i]),
            signed_byte(s[i + 1]),
            i,
            i + 1,
            e,
            &mut least,
        )?;
    }
    Ok(())
}

// The tests of the pattern whose pixel count is at place `at`.
fn pattern_outcome(s: &[u8], at: usize) -> Result<(), Refusal>
    requires { at ≤ length s.now }
    ensures { result ≡ outcome_of (pattern_read s.now at) }
{
    if s.len() <= at {
        return Err(Refusal::Ends(s.len()));
    }
    let count = s[at] as usize;
    if count == 0 {
        return Err(Refusal::Count(at));
    }
    if 64 < count {
        return Err(Refusal::Count(at));
    }
    pixels_outcome(s, at + 1, count)
}

// The tests of a whole book.
pub(crate) fn bytes_outcome(s: &[u8]) -> Result<(), Refusal>
    ensures { result ≡ outcome_of (bytes_test s.now) }
{
    if s.len() == 0 {
        return Err(Refusal::Ends(0));
    }
    let count = s[0] as usize;
    if count == 0 {
        return Err(Refusal::Count(0));
    }
    if 16 < count {
        return Err(Refusal::Count(0));
    }
    let mut at = 1;
    for _ in 0..count {
        pattern_outcome(s, at)?;
        at = at + 1 + 2 * s[at] as usize;
    }
    if at < s.len() {
        return Err(Refusal::Extra(at));
    }
    Ok(())
}
