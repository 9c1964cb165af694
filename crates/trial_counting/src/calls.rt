// The call over a part that is dirty, and of which first entries are lent; and what was left in it.
ghost use Rattle.system.specs.Layout.{read_file};
ghost use Rattle.counting.specs.Meaning.{CountPromises};

use counting::Counts;
use counting_code::count_assignments;
use std::array;
use system::Refusal;
use trial::lent::{changed_end, front_mut};

// The entries of the whole part: a few more than any system needs.
const LONG: usize = 8200;

// What a count answered, and the place from which on the whole part is as it was.
#[derive(Clone, Copy)]
pub struct Called {
    pub answer: Result<Counts, Refusal>,
    pub kept: usize,
}

// What stands at an entry of the part before it is lent.
fn dirt(i: usize) -> u64 {
    let step = (i % 65536) as u64;
    18446744073709551615 - step * 40503
}

// The call with all that it promises, of every file and every part: a contract that said it of some alone would not prove this.
fn as_promised(file: &[u8], part: &mut [u64]) -> Result<Counts, Refusal>
    ensures { CountPromises (read_file file.now) part.old result part.new }
{
    count_assignments(file, part)
}

// The assignments of a file counted, with so many entries of the part lent, or all where it has fewer.
pub fn counted(file: &[u8], lent: usize) -> Called {
    let old: [u64; LONG] = array::from_fn(dirt);
    let mut part = old;
    let answer = as_promised(file, front_mut(&mut part, lent));
    Called {
        answer,
        kept: changed_end(&part, &old),
    }
}
