// The table for r = 1. It has the differences of a book's patterns in the upper half window, rows 0 to 31 and columns -31 to 31; a
// plan suits if no cell of its lattice is marked, but for the origin's.
ghost use Rattle.std.specs.Prelude.{◌≡◌, ◌+◌, ◌*◌, ◌%◌, ◌≤◌, ◌<◌, replicate};
ghost use Rattle.std.proofs.Math.Option.{none};
ghost use Rattle.scope.specs.Plans.{at, minus};
ghost use Rattle.scope.specs.Numbers.{record_test};
ghost use Rattle.finder.specs.Table.{table_cell, mark_from, mark_pattern, mark_book, row_marked, rows_marked, TestOf};
ghost use Rattle.finder.specs.Searching.{least_below, Searched};

use crate::finding::Trial;
use scope::{Book, Pattern, Plan, Refusal};

// Its cells: 63 to a row, column -31 first; the last is that of every difference outside. They are one array of numbers, as
// Table.mark_book is one list of numbers.
#[derive(Drop)]
pub(crate) struct Marks {
    pub(crate) cells: [u8; 2017],
}

// The cell of (i, j) - (x, y): 63 to a row, column -31 first; 2016 where the difference is outside the half window.
fn difference_cell(i: i8, j: i8, x: i8, y: i8) -> usize
    ensures { result ≡ table_cell (minus (at i j) (at x y)) }
{
    let column = i as i16 - x as i16;
    let row = j as i16 - y as i16;
    if column < -31 || 31 < column {
        return 2016;
    }
    if row < 0 || 31 < row {
        return 2016;
    }
    63 * row as usize + (column + 31) as usize
}

impl Marks {
    // Marks the differences of a legal book's patterns in an empty table. The table stays where it is, as a result of this size
    // would be copied.
    pub(crate) fn mark_book(&mut self, book: &Book)
        requires { (record_test book.now ≡ none) × (self.old.cells ≡ replicate 2017 0) }
        ensures { self.new.cells ≡ mark_book book.now book.now.count }
    {
        let count = book.count;
        for n in 0..count {
            self.mark_pattern(book.patterns[n]);
        }
    }

    // Marks the differences of a pattern.
    fn mark_pattern(&mut self, t: Pattern)
        requires { t.used ≤ 64 }
        ensures { self.new.cells ≡ mark_pattern t t.used self.old.cells }
    {
        for e in 0..t.used {
            self.mark_from(t, e);
        }
    }

    // Marks the differences of a pattern's pixels and its pixel e.
    fn mark_from(&mut self, t: Pattern, e: usize)
        requires { (e < t.used) × (t.used ≤ 64) }
        ensures { self.new.cells ≡ mark_from t e t.used self.old.cells }
    {
        let columns = t.columns;
        let rows = t.rows;
        let used = t.used;
        let x = columns[e];
        let y = rows[e];
        for l in 0..used {
            let k = difference_cell(columns[l], rows[l], x, y);
            self.cells[k] = 1;
        }
    }

    // Whether a cell s, s + a, .. of row j is marked. A range in steps of a would test twice for the row's end at each cell.
    fn row_marked(&self, a: usize, j: usize, s: usize) -> bool
        requires { (1 ≤ a) × (a ≤ 1024) × (j < 32) × (s < 2048) }
        ensures { result ≡ row_marked self.now.cells a j s }
    {
        let first = 63 * j;
        let row = &self.cells[first..first + 63];
        let mut x = s;
        while let Some(cell) = row.get(x) {
            if *cell == 1 {
                return true;
            }
            x += a;
        }
        false
    }

    // Whether a lattice point of the plan a, b, d in the rows from d on is marked; s is the first cell that it has in row d.
    fn rows_marked(&self, a: usize, b: usize, d: usize, s: usize) -> bool
        requires { (b < a) × (a ≤ 1024) × (1 ≤ d) × (d ≤ 1024) × (s ≡ (31 + b) % a) }
        ensures { result ≡ rows_marked self.now.cells a b d }
    {
        let mut from = s;
        for j in (d..32).step_by(d) {
            if self.row_marked(a, j, from) {
                return true;
            }
            from += b;
            if a <= from {
                from -= a;
            }
        }
        false
    }
}

impl Trial for Marks {
    ghost tests = { λ marks. TestOf marks.cells };

    fn least_b(&self, a: usize, d: usize, below: usize) -> Result<Plan, Refusal> {
        if self.row_marked(a, 0, 31 + a) {
            return Err(Refusal::NoPlan);
        }
        let end = below.min(a);
        let mut s = 31 % a;
        for b in 0..end {
            if !self.rows_marked(a, b, d, s) {
                return Ok(Plan {
                    a: a as u32,
                    b: b as u32,
                    d: d as u32,
                });
            }
            s += 1;
            if s == a {
                s = 0;
            }
        }
        Err(Refusal::NoPlan)
    }
}
