// A pattern's pixels moved to a position, and their words.
ghost use Rattle.std.specs.Prelude.{◌≡◌, ℕ, ◌<◌, ◌≤◌, true, false, length, pos, ◌+ℤ◌, slice_index};
ghost use Rattle.std.proofs.Math.Option.{none};
ghost use Rattle.integers.specs.Division.{floor_mod};
ghost use Rattle.scope.specs.Search.{every};
ghost use Rattle.scope.specs.Plans.{at, plus, pixel_at};
ghost use Rattle.scope.specs.Banks.{within, inside, word_of, wrapped, over_start};
ghost use Rattle.scope.specs.Calls.{picture_test, word_test, moved};
ghost use Rattle.pictures.specs.Fetching.{words_at};

use crate::places::word_place;
use integers::remainder;
use scope::{Pattern, Plan};

// Whether coordinate c moved by z is from 0 to side - 1.
fn is_within(z: i16, c: i8, side: u32) -> bool
    ensures { result ≡ within (z +ℤ c) side }
{
    let x = z as i32 + c as i32;
    0 <= x && (x as u32) < side
}

// Coordinate c moved by z, modulo side; the sum itself of a plain fetch, whose pixels are inside.
fn wrapped_to(ring: bool, z: i16, c: i8, side: u32) -> i16
    requires { (1 ≤ side) × (side ≤ 4096) × (ring ≡ false → within (z +ℤ c) side ≡ true) }
    ensures { result ≡ pos (floor_mod (z +ℤ c) side) }
{
    let x = z as i32 + c as i32;
    if ring {
        return remainder(x, (side - 1) as u16) as i16;
    }
    x as i16
}

// Whether all pixels of a pattern, moved to (i, j), are inside.
pub(crate) fn all_inside(t: Pattern, w: u32, h: u32, i: i16, j: i16) -> bool
    requires { t.used ≤ 64 }
    ensures { result ≡ every (inside w h) (moved t (at i j)) }
{
    for e in 0..t.used {
        if !is_within(i, t.columns[e], w) {
            return false;
        }
        if !is_within(j, t.rows[e], h) {
            return false;
        }
    }
    true
}

// The place of the word of a pixel of the picture.
fn place_at(p: Plan, w: u32, h: u32, words: usize, i: i16, j: i16) -> usize
    requires { word_test p w h words (at i j) ≡ none }
    ensures { result ≡ word_of p w h (at i j) }
{
    word_place(p, w, h, words, i, j).unwrap() as usize
}

// Finds the places of the words of a pattern's pixels, moved to (i, j) and wrapped; those of a plain fetch are inside.
fn find_places(
    ring: bool,
    t: Pattern,
    p: Plan,
    w: u32,
    h: u32,
    words: usize,
    i: i16,
    j: i16,
    places: &mut [usize; 64],
)
    requires { (picture_test p w h words ≡ none) × (t.used ≤ 64) × (length places.old ≡ 64) × (ring ≡ false → every (inside w h) (moved t (at i j)) ≡ true) }
    ensures { (e : ℕ) → e < t.used → slice_index places.new e ≡ word_of p w h (wrapped w h (plus (at i j) (pixel_at t e))) }
{
    for e in 0..t.used {
        let x = wrapped_to(ring, i, t.columns[e], w);
        let y = wrapped_to(ring, j, t.rows[e], h);
        places[e] = place_at(p, w, h, words, x, y);
    }
}

// Puts the words of a pattern's pixels, moved to (i, j) and wrapped, at the start of the output. All places are found before
// a word is read, which is faster than one loop.
pub(crate) fn put_words(
    ring: bool,
    t: Pattern,
    p: Plan,
    w: u32,
    h: u32,
    mem: &[u16],
    i: i16,
    j: i16,
    out: &mut [u16],
)
    requires { (picture_test p w h (length mem.now) ≡ none) × (t.used ≤ 64) × (t.used ≤ length out.old) × (ring ≡ false → every (inside w h) (moved t (at i j)) ≡ true) }
    ensures { out.new ≡ over_start (words_at p w h mem.now (moved t (at i j))) out.old }
{
    let used = t.used;
    let mut places = [0usize; 64];
    find_places(ring, t, p, w, h, mem.len(), i, j, &mut places);
    for e in 0..used {
        let k = places[e];
        out[e] = mem[k];
    }
}
