// Document 01's types. What each call does with them is defined in specs/; a plan's methods are in plans.rt, its formulas
// in formulas.rt, the number, place and clash of a refusal in refusals.rt.
#![tactic(auto)]

mod formulas;
mod plans;
mod refusals;

pub use formulas::Tested;
pub use refusals::{Row, number_of, row_of};

// A pattern: the columns and rows of its pixels, of which the first `used` count. Document 01 names this form, two arrays and a count.
#[derive(Clone, Copy)]
pub struct Pattern {
    pub columns: [i8; 64],
    pub rows: [i8; 64],
    pub used: usize,
}

// A book record: the patterns numbered from 0, of which the first `count` count. Document 01 names this form, a fixed array.
#[derive(Clone, Copy)]
pub struct Book {
    pub patterns: [Pattern; 16],
    pub count: usize,
}

// A plan. Any three numbers can stand here; a call refuses by 11 those that are no plan.
#[derive(Clone, Copy)]
pub struct Plan {
    pub a: u32,
    pub b: u32,
    pub d: u32,
}

// Pixels of one pattern in one bank, more than r of them: the pattern's number and the first two positions.
#[derive(Clone, Copy)]
pub struct Clash {
    pub pattern: usize,
    pub earlier: usize,
    pub later: usize,
}

// A row of a record list, laid out as C does. A call fills in the bank and the address.
#[repr(C)]
#[derive(Clone, Copy)]
pub struct PixelRecord {
    pub column: i16,
    pub row: i16,
    pub bank: u32,
    pub address: u32,
}

// The refusals in the order of their numbers, 1 to 20. The number in the first five and in `Lower` is the place: a byte offset
// where the call was given a book's bytes, and 0 where it was given a record.
#[derive(Clone, Copy)]
pub enum Refusal {
    Ends(usize),
    Count(usize),
    Coordinate(usize),
    Repeat(usize),
    Extra(usize),
    Limit,
    NoPlan,
    Dependent,
    Large,
    Unsuited(Clash),
    NotPlan,
    Sides,
    Memory,
    Outside,
    Cell,
    Output,
    NoPattern,
    Ring,
    Lower(usize),
    Cycles,
}

// A plan and how many banks it has above the least for its r.
#[derive(Clone, Copy)]
pub struct Checked {
    pub plan: Plan,
    pub surplus: u32,
}

// What the check says of a supplier's two vectors. Document 01 names this form, an enum of these three cases.
#[derive(Clone, Copy)]
pub enum Verdict {
    Suits(Checked),
    Clashes(Clash),
    Refused(Refusal),
}

// A pixel's bank, and its word in the memory.
#[derive(Clone, Copy)]
pub struct Place {
    pub bank: u64,
    pub word: u64,
}

// The check's verdict for r, and beside it the r + 1 positions of its clash in nine places, then 0; without a clash all are 0. Document 01
// names this form: "Card 4's longer clash is an array beside it".
#[derive(Clone, Copy)]
pub struct CheckAnswer {
    pub verdict: Verdict,
    pub positions: [usize; 9],
}

// What a fetch or the cycles count, and beside it the positions of the clash in the same form.
#[derive(Clone, Copy)]
pub struct FetchAnswer {
    pub counted: Result<u64, Refusal>,
    pub positions: [usize; 9],
}

// The answer of the reader. The book stands beside the outcome: on a refusal it is empty (`ReaderRefuses.record_of_none`).
#[derive(Clone, Copy)]
pub struct Reading {
    pub book: Book,
    pub outcome: Result<(), Refusal>,
}
