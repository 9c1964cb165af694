// Whether a board handed in is true, what stands on it, and what one of its engines holds.
ghost use Rattle.std.specs.Prelude.{◌≡◌, true, map, ◌↔◌, ℕ, ◌+◌, ◌-◌, ◌*◌, ◌≤◌, ◌<◌, get_or};
ghost use Rattle.system.specs.Limits.{engine_limit};
ghost use Rattle.system.specs.declared.TaskType.{TaskType};
ghost use Rattle.loads.specs.Load.{plus, within};
ghost use Rattle.board.specs.Boards.{marked, load_at, standing_of, standing};
ghost use Rattle.board.specs.Truth.{true_engine, zero_engine, true_loads, mark_true, true_marks, true_board, engine_true};
ghost use Rattle.board.specs.Words.{IsTrue};

use board::Board;
use loads::EngineLoad;
use system::{ENGINE_LIMIT, System, TYPE_LIMIT, TaskType};

// An engine's stored sums are those of its load, which fits.
fn true_engine(y: System, l: EngineLoad) -> bool
    ensures { result ≡ true_engine y l }
{
    let sums = loads_code::sums_of(y, l.counts);
    (l.time as u64 == sums.time)
        & (l.memory as u64 == sums.memory)
        & loads_code::fits_engine(y, l.counts)
}

// All 0: what an engine past m has.
fn zero_engine(l: EngineLoad) -> bool
    ensures { result ≡ zero_engine l }
{
    (l.time == 0) & (l.memory == 0) & loads_code::holds_none(l.counts)
}

// The first m engines are true, the others 0. A board has its loads apart from its marks: this is asked of a sheet's loads too, which have no marks.
pub fn true_loads(y: System, loads: [EngineLoad; ENGINE_LIMIT]) -> bool
    ensures { result ≡ true_loads y y.engines loads }
{
    loads.iter().enumerate().all(|(i, l)| true_at(y, i, *l))
}

// What the engine at index i has to be.
fn true_at(y: System, i: usize, l: EngineLoad) -> bool
    ensures { result ≡ engine_true y i l }
{
    if i < y.engines {
        return true_engine(y, l);
    }
    zero_engine(l)
}

// Engine e is marked. The bound of e stands in each contract about one engine: the calls take any number, and refuse 14 where it is no engine's.
pub(crate) fn marked(b: &Board, e: usize) -> bool
    requires { (1 ≤ e) × (e ≤ engine_limit) }
    ensures { result ≡ marked b.now e }
{
    b.marks[e - 1]
}

// Where engine e is marked, it is one of the engines 1 to m and holds nothing. Its first answer is what edit `mark_past_m` turns.
fn mark_true(b: &Board, e: usize) -> bool
    requires { (1 ≤ e) × (e ≤ engine_limit) }
    ensures { result ≡ mark_true b.now e }
{
    if marked(b, e) {
        let counts = load_at(b, e);
        return (e <= b.system.engines) & loads_code::holds_none(counts);
    }
    true
}

// Of each of the sixteen engines. The board is lent to what is asked of one engine: a copy for each of them takes longer than the tests.
fn true_marks(b: Board) -> bool
    ensures { result ≡ true_marks b }
{
    (1..ENGINE_LIMIT + 1).all(|e| mark_true(&b, e))
}

// A load added to a sum of at most 15 others.
fn added(l: EngineLoad, sum: [u32; TYPE_LIMIT]) -> [u32; TYPE_LIMIT]
    requires { (t : ℕ) → get_or sum t 0 ≤ 15 * 65535 }
    ensures { (result ≡ plus l.counts sum) × ((t : ℕ) → get_or result t 0 ≤ get_or sum t 0 + 65535) }
{
    std::array::from_fn(|t| l.counts[t] as u32 + sum[t])
}

// What stands: the sum over the engines. The array that a call answers goes through a variable of its own: the check covers no other form.
pub fn total(loads: [EngineLoad; ENGINE_LIMIT]) -> [u32; TYPE_LIMIT]
    ensures { result ≡ standing_of loads }
{
    let mut sum = [0; TYPE_LIMIT];
    for l in &loads {
        let next = added(*l, sum);
        sum = next;
    }
    sum
}

// No total is above its type's ceiling.
fn under_ceilings(sum: [u32; TYPE_LIMIT], types: [TaskType; TYPE_LIMIT]) -> bool
    ensures { result ≡ within sum (map (λ (t : TaskType). t.ceiling) types) }
{
    sum.iter()
        .zip(&types)
        .all(|(all, task)| *all <= task.ceiling as u32)
}

// Totals that fit 16 bits, as counts.
fn narrowed(sum: [u32; TYPE_LIMIT]) -> [u16; TYPE_LIMIT]
    requires { (t : ℕ) → get_or sum t 0 < 65536 }
    ensures { result ≡ sum }
{
    sum.map(|all| all as u16)
}

// What stands on a true board, as a load.
pub(crate) fn standing_counts(b: Board) -> [u16; TYPE_LIMIT]
    requires { true_board b ≡ true }
    ensures { result ≡ standing b }
{
    narrowed(total(b.loads))
}

// What engine e holds.
pub(crate) fn load_at(b: &Board, e: usize) -> [u16; TYPE_LIMIT]
    requires { (1 ≤ e) × (e ≤ engine_limit) }
    ensures { result ≡ load_at b.now e }
{
    b.loads[e - 1].counts
}

// Whether the board is true: document 01's row of refusal 20, and the marks of request 2026-07.
pub fn true_board(b: Board) -> bool
    ensures value { result ≡ true_board b }
    ensures variant { (result ≡ true) ↔ IsTrue b }
{
    let y = b.system;
    let sum = total(b.loads);
    system_code::keeps_limits(y)
        & true_loads(y, b.loads)
        & under_ceilings(sum, y.types)
        & true_marks(b)
}
