// What a recipe is refused with: 39, 40, in this order.
ghost use Rattle.std.specs.Prelude.{◌≡◌, ◌+◌, ◌^◌, leb};
ghost use Rattle.system.specs.Limits.{column_limit};
ghost use Rattle.system.specs.Outcome.{within};
ghost use Rattle.making.specs.Making.{numbers_fault, power_fault, recipe_fault};

use making::Recipe;
use system::{COLUMN_LIMIT, Refusal, TYPE_LIMIT};
use system_code::platform_fault;

// The seed, U and S are not 0, and every number but g is within its limit: 39.
fn numbers_fault(w: Recipe) -> Result<(), Refusal>
    ensures { result ≡ within (numbers_fault w) }
{
    let platform = platform_fault(w.engines, w.rule, w.timecap, w.memorycap).is_ok();
    let some = (1 <= w.seed) & (1 <= w.timecap) & (1 <= w.memorycap);
    let counted = (1 <= w.typecount) & (w.typecount <= TYPE_LIMIT);
    if !(some & platform & counted) {
        return Err(Refusal::Input(39));
    }
    Ok(())
}

// g + 1 to a power is at most 4,096. A product p × (g + 1) is, exactly where g is less than 4,096 / p: so none is made that is not, and g may be any number.
fn power_within(top: u64, times: usize) -> bool
    ensures { result ≡ leb ((top + 1) ^ times) column_limit }
{
    let most = COLUMN_LIMIT as u64;
    let mut product: u64 = 1;
    for _t in 0..times {
        if most / product <= top {
            return false;
        }
        product *= top + 1;
    }
    true
}

// The power of g + 1: 40.
fn power_fault(w: Recipe) -> Result<(), Refusal>
    ensures { result ≡ within (power_fault w) }
{
    if !power_within(w.top, w.typecount) {
        return Err(Refusal::Input(40));
    }
    Ok(())
}

// All that refuses a recipe, whatever the buffer.
pub fn recipe_fault(w: Recipe) -> Result<(), Refusal>
    ensures { result ≡ within (recipe_fault w) }
{
    numbers_fault(w)?;
    power_fault(w)
}
