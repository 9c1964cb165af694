// The placements of two kinds of engine as one: the used engines of the first kind, then those of the second, whose numbers come after all engines of
// the first.
ghost use Rattle.std.specs.Prelude.{◌≡◌, ◌+◌, ◌≤◌, Some};
ghost use Rattle.std.proofs.Math.Seq.{paste};
ghost use Rattle.system.specs.Limits.{engine_limit};
ghost use Rattle.partition.specs.Assignment.{numbers_from};
ghost use Rattle.kinds.specs.Inner.{joined_placement};

use kinds::Mixed;
use loads::EngineLoad;
use system::ENGINE_LIMIT;
use table::Placement;

// The first `count` of the loads `more` in the places from `at` on; the others are as they were.
fn loads_after(
    loads: [EngineLoad; ENGINE_LIMIT],
    at: usize,
    more: [EngineLoad; ENGINE_LIMIT],
    count: usize,
) -> [EngineLoad; ENGINE_LIMIT]
    requires { at + count ≤ engine_limit }
    ensures { result ≡ paste loads at more count }
{
    let mut both = loads;
    both[at..at + count].copy_from_slice(&more[..count]);
    both
}

// The numbers `from`, `from` + 1, .., as many as `count`, in the places from `at` on; the others are as they were.
fn numbers_after(
    numbers: [usize; ENGINE_LIMIT],
    at: usize,
    from: usize,
    count: usize,
) -> [usize; ENGINE_LIMIT]
    requires { (at + count ≤ engine_limit) × (from ≤ engine_limit + 1) }
    ensures { result ≡ paste numbers at (numbers_from from count) count }
{
    let mut both = numbers;
    for i in 0..count {
        let to = at + i;
        both[to] = from + i;
    }
    both
}

// Both placements as one; m is the number of engines of the first kind.
pub(crate) fn joined(first: Placement, second: Placement, m: usize) -> Mixed
    requires { (first.used + second.used ≤ engine_limit) × (m ≤ engine_limit) }
    ensures { Some result ≡ joined_placement (Some first) (Some second) m }
{
    let front = numbers_after([0; ENGINE_LIMIT], 0, 1, first.used);
    let numbers = numbers_after(front, first.used, m + 1, second.used);
    let loads = first.loads;
    let more = second.loads;
    Mixed {
        used: first.used + second.used,
        numbers,
        loads: loads_after(loads, first.used, more, second.used),
    }
}
