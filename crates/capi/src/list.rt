// The record list: a slice of records laid out as C does.
ghost use Rattle.std.specs.Prelude.{◌≡◌};
ghost use Rattle.scope.specs.Plans.{plan};
ghost use Rattle.scope.specs.Numbers.{of_result};
ghost use Rattle.scope.specs.Calls.{fill_records};
ghost use Rattle.capi.specs.Told.{Tells, no_row};

use crate::flat::plan_of;
use crate::told::tell;
use records::fill_records;
use scope::PixelRecord;

// Fills in the bank and the address of every record.
#[unsafe(no_mangle)]
pub extern "C" fn bankplan_fill_records(
    a: u32,
    b: u32,
    d: u32,
    w: u32,
    h: u32,
    list: &mut [PixelRecord],
    answer: &mut [u64; 12],
) -> u64
    ensures { Tells no_row (of_result (fill_records (plan a b d) w h list.old).answer) answer.old answer.new result × (list.new ≡ (fill_records (plan a b d) w h list.old).content) }
{
    tell(fill_records(plan_of(a, b, d), w, h, list), answer)
}
