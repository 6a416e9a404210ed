// Where a word or a bank stands in a memory of so many words, with so many entries for the sums.
ghost use Rattle.std.specs.Prelude.{◌≡◌};
ghost use Rattle.scope.specs.Plans.{at};
ghost use Rattle.scope.specs.Calls.{picture_test};
ghost use Rattle.book.specs.Scan.{outcome_of};
ghost use Rattle.pictures.specs.Places.{picture_depth, lent_depth, word_place, bank_depth};

use scope::{Plan, Refusal};

// The depth of a picture that the memory holds, or 11, 12, 13.
fn picture_depth(p: Plan, w: u32, h: u32, words: usize) -> Result<u64, Refusal>
    ensures { result ≡ picture_depth p w h words }
{
    let depth = p.depth(w, h)?;
    if (words as u64) < p.banks() * depth {
        return Err(Refusal::Memory);
    }
    Ok(depth)
}

// The same with so many entries for the sums: 11, 12, 13, also where they are too few.
pub(crate) fn lent_depth(
    p: Plan,
    w: u32,
    h: u32,
    words: usize,
    entries: usize,
) -> Result<u64, Refusal>
    ensures { result ≡ lent_depth p w h (record { words = words; entries = entries }) }
{
    let depth = picture_depth(p, w, h, words)?;
    if (entries as u64) < p.banks() {
        return Err(Refusal::Memory);
    }
    Ok(depth)
}

// Whether there is a picture that the memory holds, or 11, 12, 13.
pub(crate) fn picture_outcome(p: Plan, w: u32, h: u32, words: usize) -> Result<(), Refusal>
    ensures { result ≡ outcome_of (picture_test p w h words) }
{
    picture_depth(p, w, h, words)?;
    Ok(())
}

// The place of the word of the pixel (i, j), or 11, 12, 13, 14.
#[inline(always)]
pub(crate) fn word_place(
    p: Plan,
    w: u32,
    h: u32,
    words: usize,
    i: i16,
    j: i16,
) -> Result<u64, Refusal>
    ensures { result ≡ word_place p w h words (at i j) }
{
    picture_outcome(p, w, h, words)?;
    p.word(w, h, i, j)
}

// How many words bank k has, which begins at k times as many, or 11, 12, 13, 15.
pub(crate) fn bank_depth(p: Plan, w: u32, h: u32, words: usize, k: u64) -> Result<u64, Refusal>
    ensures { result ≡ bank_depth p w h words k }
{
    let depth = picture_depth(p, w, h, words)?;
    if p.banks() <= k {
        return Err(Refusal::Cell);
    }
    Ok(depth)
}
