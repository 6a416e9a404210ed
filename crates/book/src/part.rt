// A pattern's part of a book's bytes, and what refuses it.
ghost use Rattle.std.specs.Prelude.{◌≡◌, ◌+◌, ◌≤◌};
ghost use Rattle.std.proofs.Math.Option.{none};
ghost use Rattle.scope.specs.Books.{byte, start};
ghost use Rattle.scope.specs.Numbers.{bytes_test};
ghost use Rattle.scope.specs.Calls.{pattern_part, part_outcome, part_place};

use crate::scanner::bytes_outcome;
use scope::Refusal;

// The place of pattern n's pixel count.
fn start_of(s: &[u8], n: usize) -> usize
    requires { (bytes_test s.now ≡ none) × (n ≤ byte s.now 0) }
    ensures { result ≡ start s.now n }
{
    let mut at = 1;
    for _ in 0..n {
        at = at + 1 + 2 * s[at] as usize;
    }
    at
}

// Whether pattern n has a part of these bytes, or 1 to 5, 19, 17.
pub fn part_outcome(s: &[u8], n: usize) -> Result<(), Refusal>
    ensures { result ≡ part_outcome s.now n }
{
    bytes_outcome(s)?;
    if s[0] as usize <= n {
        return Err(Refusal::NoPattern);
    }
    Ok(())
}

// Where pattern n's part begins; 0 where `part_outcome` refuses.
pub fn part_place(s: &[u8], n: usize) -> usize
    ensures { result ≡ part_place s.now n }
{
    let outcome = part_outcome(s, n);
    if let Err(_) = outcome {
        return 0;
    }
    start_of(s, n) + 1
}

// Pattern n's pixel bytes, as the part of s where they stand; an empty part where `part_outcome` refuses.
pub fn pattern_part(s: &[u8], n: usize) -> &[u8]
    ensures content { result.now ≡ pattern_part s.now n }
    ensures place { result.ref_ptr ≡ (s.entry.ref_ptr.0, s.entry.ref_ptr.1 + part_place s.now n) }
{
    let outcome = part_outcome(s, n);
    if let Err(_) = outcome {
        return &s[0..0];
    }
    let at = start_of(s, n);
    let first = at + 1;
    let end = first + 2 * s[at] as usize;
    &s[first..end]
}
