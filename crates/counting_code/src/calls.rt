// The call that counts the assignments of a system file.
ghost use Rattle.system.specs.Layout.{read_file};
ghost use Rattle.counting.specs.Meaning.{CountPromises};

use crate::passes::count_good;
use crate::total::total_of;
use counting::Counts;
use system::Refusal;

// Counts the good assignments of a system file, and all: refused 1 to 10, 31 and 41 to 43 as the file is read, 37 where the total passes 64 bits, 38 where
// the lent part is too short.
pub fn count_assignments(file: &[u8], part: &mut [u64]) -> Result<Counts, Refusal>
    ensures { CountPromises (read_file file.now) part.old result part.new }
{
    let opened = system_code::read_system(file);
    opened.answer?;
    let y = opened.system;
    let Some(total) = total_of(y) else {
        return Err(Refusal::Input(37));
    };
    let columns = system_code::columns_within(y.types);
    if part.len() < 2 * columns {
        return Err(Refusal::Input(38));
    }
    Ok(Counts {
        good: count_good(part, y, columns),
        total,
    })
}
