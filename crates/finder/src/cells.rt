// The table for an r above 1: the pixels of a book as cells of the window. counting.rt tries plans on it.
ghost use Rattle.std.specs.Prelude.{◌≡◌, ◌≤◌, ◌<◌, replicate};
ghost use Rattle.std.proofs.Math.Option.{none};
ghost use Rattle.scope.specs.Numbers.{record_test};
ghost use Rattle.finder.specs.Counting.{pattern_entry, cells_of, EntriesPut};

use book::cell;
use scope::{Book, Pattern};

// Its entries: 65 to a pattern, one pattern after the other, in one array, as Counting.cells_of is one list.
#[derive(Drop)]
pub(crate) struct Cells {
    pub(crate) entries: [u16; 1040],
    pub(crate) r: u8,
}

// The entries of a pattern: its pixel count, then the cells of its pixels, then 0. What stands past its pixels is not looked at.
fn entry_of(t: Pattern, k: usize) -> u16
    requires { (t.used ≤ 64) × (k < 65) }
    ensures { result ≡ pattern_entry t k }
{
    if k == 0 {
        return t.used as u16;
    }
    if t.used < k {
        return 0;
    }
    let e = k - 1;
    let i = t.columns[e];
    let j = t.rows[e];
    cell(i, j)
}

impl Cells {
    // Puts the entries of a legal book's patterns; the rest stays 0.
    pub(crate) fn put_book(&mut self, book: &Book)
        requires { (record_test book.now ≡ none) × (self.old.entries ≡ replicate 1040 0) }
        ensures { (self.new.entries ≡ cells_of book.now) × (self.new.r ≡ self.old.r) }
    {
        let count = book.count;
        for n in 0..count {
            self.put_entries(book.patterns[n], n);
        }
    }

    // Puts the entries of the pattern t, number n.
    fn put_entries(&mut self, t: Pattern, n: usize)
        requires { (t.used ≤ 64) × (n < 16) }
        ensures { EntriesPut t n 65 self.old.entries self.new.entries × (self.new.r ≡ self.old.r) }
    {
        for e in 0..65 {
            self.entries[65 * n + e] = entry_of(t, e);
        }
    }
}
