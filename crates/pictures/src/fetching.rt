// Fetch and ring fetch. Both are one function but for the edge: 14, or 18 and wrapping; it has two names, since document 01 has two
// calls. What they begin with is found out apart from the rest, so that a list of fetches need not find it out again.
ghost use Rattle.std.specs.Prelude.{◌≡◌, ◌<◌, ◌≤◌, true, false, length};
ghost use Rattle.std.proofs.Math.Option.{none};
ghost use Rattle.scope.specs.Search.{every};
ghost use Rattle.scope.specs.Plans.{at, is_plan};
ghost use Rattle.scope.specs.Banks.{inside};
ghost use Rattle.scope.specs.Numbers.{is_ring};
ghost use Rattle.scope.specs.Calls.{picture_test, moved, edge_test, fetch_rest, either_fetch, fetch, ring_fetch};
ghost use Rattle.book.specs.Scan.{outcome_of};
ghost use Rattle.pictures.specs.Fetching.{found_by, start_test, start_positions, delivered};

use crate::moving::{all_inside, put_words};
use crate::places::picture_outcome;
use book::entry_number;
use finder::{Suited, book_outcome, suits_answer};
use scope::{Book, FetchAnswer, Pattern, Plan, Refusal, Tested};

// What a fetch of the pattern t, number n of `count`, begins with: what the tests of the book and r and of the picture found, then 17,
// 10, and beside it the positions of the clash.
pub(crate) fn start_answer(
    tested: Result<(), Refusal>,
    picture: Result<(), Refusal>,
    count: usize,
    t: Pattern,
    r: u32,
    p: Plan,
    n: usize,
) -> Suited
    requires { (found_by tested ≡ none → (1 ≤ r) × (r ≤ 8) × (n < count → (1 ≤ t.used) × (t.used ≤ 64))) × (found_by picture ≡ none → is_plan p ≡ true) }
    ensures { (result.outcome ≡ outcome_of (start_test (found_by tested) (found_by picture) count t r p n)) × (result.positions ≡ start_positions (found_by tested) (found_by picture) count t r p n) }
{
    let positions = [0usize; 9];
    if let Err(_) = tested {
        return Suited {
            outcome: tested,
            positions,
        };
    }
    if let Err(_) = picture {
        return Suited {
            outcome: picture,
            positions,
        };
    }
    if count <= n {
        return Suited {
            outcome: Err(Refusal::NoPattern),
            positions,
        };
    }
    suits_answer(p, n, t, r)
}

// Whether a ring fetch is allowed: a divides w, d divides h, and a divides b × (h/d), which has 32 bits.
#[tactic(auto, unfolding(scope::specs::Numbers::is_ring))]
fn is_ring(tested: Tested, w: u32, h: u32) -> bool
    requires { h ≤ 4096 }
    ensures { result ≡ is_ring tested.plan w h }
{
    let p = tested.plan;
    w % p.a == 0 && h % p.d == 0 && p.b * (h / p.d) % p.a == 0
}

// The edge: 14 for a pattern moved to (i, j), or 18 for a ring fetch.
fn edge_outcome(
    ring: bool,
    t: Pattern,
    p: Tested,
    w: u32,
    h: u32,
    i: i16,
    j: i16,
) -> Result<(), Refusal>
    requires { (h ≤ 4096) × (t.used ≤ 64) }
    ensures { result ≡ outcome_of (edge_test ring p.plan w h (moved t (at i j))) }
{
    if ring {
        if !is_ring(p, w, h) {
            return Err(Refusal::Ring);
        }
        return Ok(());
    }
    if !all_inside(t, w, h, i, j) {
        return Err(Refusal::Outside);
    }
    Ok(())
}

// Puts the words of a pattern moved to (i, j), wrapped, and tells how many, or 16 and the output as it was.
fn deliver(
    ring: bool,
    t: Pattern,
    p: Plan,
    w: u32,
    h: u32,
    mem: &[u16],
    i: i16,
    j: i16,
    out: &mut [u16],
) -> Result<u64, Refusal>
    requires { (picture_test p w h (length mem.now) ≡ none) × (t.used ≤ 64) × (ring ≡ false → every (inside w h) (moved t (at i j)) ≡ true) }
    ensures { (result ≡ (delivered p w h mem.now (moved t (at i j)) out.old).answer) × (out.new ≡ (delivered p w h mem.now (moved t (at i j)) out.old).content) }
{
    let used = t.used;
    if out.len() < used {
        return Err(Refusal::Output);
    }
    put_words(ring, t, p, w, h, mem, i, j, out);
    Ok(used as u64)
}

// What a fetch of the pattern t goes on with after its first tests: the edge, then 16 and the words.
pub(crate) fn fetch_rest(
    start: Result<(), Refusal>,
    ring: bool,
    t: Pattern,
    p: Plan,
    w: u32,
    h: u32,
    mem: &[u16],
    i: i16,
    j: i16,
    out: &mut [u16],
) -> Result<u64, Refusal>
    requires { found_by start ≡ none → (picture_test p w h (length mem.now) ≡ none) × (t.used ≤ 64) }
    ensures { (result ≡ (fetch_rest (found_by start) ring t p w h mem.now (at i j) out.old).answer) × (out.new ≡ (fetch_rest (found_by start) ring t p w h mem.now (at i j) out.old).content) }
{
    start?;
    edge_outcome(ring, t, Tested { plan: p }, w, h, i, j)?;
    deliver(ring, t, p, w, h, mem, i, j, out)
}

// Either fetch of a book's pattern n.
fn either_fetch(
    ring: bool,
    book: Book,
    r: u32,
    p: Plan,
    w: u32,
    h: u32,
    mem: &[u16],
    n: usize,
    i: i16,
    j: i16,
    out: &mut [u16],
) -> FetchAnswer
    ensures answer { (result.counted ≡ (either_fetch ring book r p w h mem.now n (at i j) out.old).answer.counted) × (result.positions ≡ (either_fetch ring book r p w h mem.now n (at i j) out.old).answer.positions) }
    ensures left { out.new ≡ (either_fetch ring book r p w h mem.now n (at i j) out.old).content }
{
    let tested = book_outcome(book, r);
    let picture = picture_outcome(p, w, h, mem.len());
    let k = entry_number(n);
    let t = book.patterns[k];
    let start = start_answer(tested, picture, book.count, t, r, p, n);
    let outcome = start.outcome;
    let positions = start.positions;
    let counted = fetch_rest(outcome, ring, t, p, w, h, mem, i, j, out);
    FetchAnswer { counted, positions }
}

// Fetches pattern n moved to (i, j) for r and tells how many words, or 2, 3, 4, 19, 20, 11, 12, 13, 17, 10, 14, 16 and the output as it
// was.
pub fn fetch(
    book: Book,
    r: u32,
    p: Plan,
    w: u32,
    h: u32,
    mem: &[u16],
    n: usize,
    i: i16,
    j: i16,
    out: &mut [u16],
) -> FetchAnswer
    ensures answer { (result.counted ≡ (fetch book r p w h mem.now n (at i j) out.old).answer.counted) × (result.positions ≡ (fetch book r p w h mem.now n (at i j) out.old).answer.positions) }
    ensures left { out.new ≡ (fetch book r p w h mem.now n (at i j) out.old).content }
{
    either_fetch(false, book, r, p, w, h, mem, n, i, j, out)
}

// The same around the picture's edges; 18 in the place of 14.
pub fn ring_fetch(
    book: Book,
    r: u32,
    p: Plan,
    w: u32,
    h: u32,
    mem: &[u16],
    n: usize,
    i: i16,
    j: i16,
    out: &mut [u16],
) -> FetchAnswer
    ensures answer { (result.counted ≡ (ring_fetch book r p w h mem.now n (at i j) out.old).answer.counted) × (result.positions ≡ (ring_fetch book r p w h mem.now n (at i j) out.old).answer.positions) }
    ensures left { out.new ≡ (ring_fetch book r p w h mem.now n (at i j) out.old).content }
{
    either_fetch(true, book, r, p, w, h, mem, n, i, j, out)
}
