// The calls under test.
ghost use Rattle.system.specs.Layout.{read_file};
ghost use Rattle.deadlines.specs.Meaning.{RunPromises};

use deadlines_code::run_engine;
use planner::Plan;
use planner_code::plan_of;
use runs::Report;
use system::{Refusal, TYPE_LIMIT};

// The entries of each part that is lent for a plan: more than any system needs.
const LONG: usize = 4100;

// The call with all that it promises, of every file, counts and number of ticks: a contract that said it of some alone would not prove this.
pub fn run_called(file: &[u8], counts: [u16; TYPE_LIMIT], ticks: usize) -> Result<Report, Refusal>
    ensures { RunPromises (read_file file.now) counts ticks result }
{
    run_engine(file, counts, ticks)
}

// The plan of a file, over parts that are long enough and dirty.
pub fn planned(file: &[u8]) -> Plan {
    plan_of(file, &mut [50000; LONG], &mut [60000; LONG])
}
