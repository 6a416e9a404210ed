// The window of a pattern's pixels, columns and rows from -16 to 15, and the test of one pixel by the cells of those before it.
ghost use Rattle.std.specs.Prelude.{◌≡◌, ◌<◌, length};
ghost use Rattle.scope.specs.Plans.{at};
ghost use Rattle.book.specs.Scan.{cell_of, is_among, Tested};

use scope::Refusal;

// A pixel's place in the window, row by row, from 0 to 1023; 1024 where its column is outside, else 1025 where its row is.
pub fn cell(i: i8, j: i8) -> u16
    ensures { result ≡ cell_of (at i j) }
{
    if i < -16 || 15 < i {
        return 1024;
    }
    if j < -16 || 15 < j {
        return 1025;
    }
    32 * (j + 16) as u16 + (i + 16) as u16
}

// Whether k is one of the entries 1 to e.
fn is_among(least: &[u16], e: usize, k: u16) -> bool
    requires { e < length least.now }
    ensures { result ≡ is_among least.now e k }
{
    (0..e).any(|l| least[l + 1] == k)
}

// The tests of the pixel (x, y) at position e of its pattern; i and j are the places of its column and its row. `least` has the
// least cell that a pixel may have at each position up to e: 0 at first, and then one more than the cell before. Cells ascend,
// so a pixel from there on is neither a repeat nor lower. It gets the next entry.
pub(crate) fn pixel_outcome(
    x: i8,
    y: i8,
    i: usize,
    j: usize,
    e: usize,
    least: &mut [u16],
) -> Result<(), Refusal>
    requires { (length least.old ≡ 65) × (e < 64) }
    ensures { Tested i j e (at x y) least.old least.new result }
{
    let k = cell(x, y);
    if k == 1024 {
        return Err(Refusal::Coordinate(i));
    }
    if k == 1025 {
        return Err(Refusal::Coordinate(j));
    }
    if least[e] <= k {
        least[e + 1] = k + 1;
        return Ok(());
    }
    if is_among(least, e, k + 1) {
        return Err(Refusal::Repeat(i));
    }
    Err(Refusal::Lower(i))
}
