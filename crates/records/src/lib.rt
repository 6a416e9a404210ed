// The record list: the bank and the address of every pixel of a lent list. All goes by the methods of the plan.
#![tactic(auto)]

ghost use Rattle.std.specs.Prelude.{◌≡◌};
ghost use Rattle.scope.specs.Calls.{fill_records};
ghost use Rattle.records.specs.Filling.{is_placeable, placed_if, fill_answer};

use scope::{PixelRecord, Plan, Refusal};

// Whether p is a plan, w and h are sides and the record's pixel is inside.
fn is_placeable(p: Plan, w: u32, h: u32, r: PixelRecord) -> bool
    ensures { result ≡ is_placeable p w h r }
{
    p.address(w, h, r.column, r.row).is_ok()
}

// The record with its bank and its address, or as it was where it is not placeable.
fn placed(p: Plan, w: u32, h: u32, r: PixelRecord) -> PixelRecord
    ensures { result ≡ placed_if p w h r }
{
    let i = r.column;
    let j = r.row;
    let Ok(address) = p.address(w, h, i, j) else {
        return r;
    };
    let Ok(bank) = p.bank(i, j) else {
        return r;
    };
    PixelRecord {
        column: i,
        row: j,
        bank: bank as u32,
        address: address as u32,
    }
}

// The answer for a list whose pixels are all inside, or not: 11, 12, 14.
fn fill_answer(p: Plan, w: u32, h: u32, inside: bool) -> Result<(), Refusal>
    ensures { result ≡ fill_answer p w h inside }
{
    p.depth(w, h)?;
    if inside {
        Ok(())
    } else {
        Err(Refusal::Outside)
    }
}

// Fills in the bank and the address of every record, or changes none and refuses by 11, 12, 14.
pub fn fill_records(p: Plan, w: u32, h: u32, list: &mut [PixelRecord]) -> Result<(), Refusal>
    ensures { (result ≡ (fill_records p w h list.old).answer) × (list.new ≡ (fill_records p w h list.old).content) }
{
    if !list.iter().all(|r| is_placeable(p, w, h, *r)) {
        return fill_answer(p, w, h, false);
    }
    for i in 0..list.len() {
        let r = list[i];
        list[i] = placed(p, w, h, r);
    }
    fill_answer(p, w, h, true)
}
