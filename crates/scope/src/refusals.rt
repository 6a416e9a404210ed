// A refusal as document 01's number, place and clash.
ghost use Rattle.std.specs.Prelude.{◌≡◌};
ghost use Rattle.scope.specs.Numbers.{row_of, number_of};
ghost use Rattle.scope.specs.code.RefusalRows.{row_clash};

use crate::{Clash, Refusal};

// A refusal's number, its place and, of 10, its clash.
#[derive(Clone, Copy)]
pub struct Row {
    pub number: u64,
    pub place: u64,
    pub clash: Option<Clash>,
}

// A refusal's row of the table.
pub fn row_of(r: Refusal) -> Row
    ensures { row_of r ≡ (result.number, result.place, row_clash result.clash) }
{
    let (number, place, clash) = match r {
        Refusal::Ends(i) => (1, i as u64, None),
        Refusal::Count(i) => (2, i as u64, None),
        Refusal::Coordinate(i) => (3, i as u64, None),
        Refusal::Repeat(i) => (4, i as u64, None),
        Refusal::Extra(i) => (5, i as u64, None),
        Refusal::Limit => (6, 0, None),
        Refusal::NoPlan => (7, 0, None),
        Refusal::Dependent => (8, 0, None),
        Refusal::Large => (9, 0, None),
        Refusal::Unsuited(c) => (10, 0, Some(c)),
        Refusal::NotPlan => (11, 0, None),
        Refusal::Sides => (12, 0, None),
        Refusal::Memory => (13, 0, None),
        Refusal::Outside => (14, 0, None),
        Refusal::Cell => (15, 0, None),
        Refusal::Output => (16, 0, None),
        Refusal::NoPattern => (17, 0, None),
        Refusal::Ring => (18, 0, None),
        Refusal::Lower(i) => (19, i as u64, None),
        Refusal::Cycles => (20, 0, None),
    };
    Row {
        number,
        place,
        clash,
    }
}

// A refusal's number.
pub fn number_of(r: Refusal) -> u64
    ensures { result ≡ number_of r }
{
    row_of(r).number
}
