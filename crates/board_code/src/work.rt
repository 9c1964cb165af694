// The work of a call once its checks have passed.
ghost use Rattle.std.specs.Prelude.{◌≡◌, true, ◌-◌, ◌≤◌, length, Ok, Err, Some, None};
ghost use Rattle.system.specs.Limits.{engine_limit};
ghost use Rattle.system.specs.Values.{ceilings_of};
ghost use Rattle.loads.specs.Load.{fits_engine, within, one_more, one_less};
ghost use Rattle.partition.specs.Lent.{lent};
ghost use Rattle.table.specs.Table.{long_enough};
ghost use Rattle.table.specs.Chain.{listed};
ghost use Rattle.board.specs.Boards.{empty_board, with_load, with_mark, engines_of, load_at};
ghost use Rattle.board.specs.Truth.{true_board};
ghost use Rattle.board.specs.Calls.{known_type, takes, with_newcomer, first_engine, crowded, reseated, Does};
ghost use Rattle.board.specs.Inner.{CheckedNewcomer, OnEngine};

use crate::state;
use board::{Board, Turn};
use system::{Answer, ENGINE_LIMIT, Refusal, System, TYPE_LIMIT};
use table::Engines;

// A board on which nothing stands and no engine is marked.
pub fn empty_board(y: System) -> Board
    ensures { result ≡ empty_board y }
{
    Board {
        system: y,
        loads: [loads_code::idle_engine(); ENGINE_LIMIT],
        marks: [false; ENGINE_LIMIT],
    }
}

// The engines that instances may be on: those in service, rising. The list is crate `table`'s, a count and an array of numbers, since no heap is used.
pub fn engines_of(b: Board) -> Engines
    requires { true_board b ≡ true }
    ensures { (result.count ≡ length (engines_of b)) × (listed result ≡ engines_of b) }
{
    let mut numbers = [0usize; ENGINE_LIMIT];
    let mut count: usize = 0;
    for i in 0..b.system.engines {
        if !b.marks[i] {
            numbers[count] = i + 1;
            count += 1;
        }
    }
    Engines { count, numbers }
}

// A refusal hands back the board as it was given.
pub fn refuse(b: Board, why: Refusal) -> Turn
    ensures { (result.answer ≡ Err why) × (result.board ≡ b) }
{
    Turn {
        answer: Err(why),
        board: b,
    }
}

// The board with this load on engine e, its sums computed anew.
fn with_load(b: Board, e: usize, counts: [u16; TYPE_LIMIT]) -> Board
    requires { (1 ≤ e) × (e ≤ engine_limit) × (fits_engine b.system counts ≡ true) }
    ensures { result ≡ with_load b e counts }
{
    let mut next = b;
    next.loads[e - 1] = loads_code::engine_with(b.system, counts);
    next
}

// What engine e would hold with a newcomer of type t.
fn load_with(b: Board, t: usize, e: usize) -> [u16; TYPE_LIMIT]
    requires { CheckedNewcomer b t × OnEngine b e }
    ensures { result ≡ one_more (t - 1) (load_at b e) }
{
    let counts = state::load_at(&b, e);
    loads_code::one_more(counts, t - 1)
}

// Engine e takes a newcomer of type t.
fn takes_it(b: Board, t: usize, e: usize) -> bool
    requires { CheckedNewcomer b t × OnEngine b e }
    ensures { result ≡ takes b t e }
{
    loads_code::fits_engine(b.system, load_with(b, t, e))
}

// The lowest-numbered engine that takes a newcomer of type t. A closure for `find` would have to ask once more what `takes_it` asks of an engine.
pub fn first_engine(b: Board, t: usize) -> Option<usize>
    requires { CheckedNewcomer b t }
    ensures { result ≡ first_engine b t }
{
    let engines = engines_of(b);
    for e in &engines.numbers[..engines.count] {
        if takes_it(b, t, *e) {
            return Some(*e);
        }
    }
    None
}

// What stands with a newcomer of type t.
pub fn with_newcomer(b: Board, t: usize) -> [u16; TYPE_LIMIT]
    requires { CheckedNewcomer b t }
    ensures { result ≡ with_newcomer b t }
{
    let counts = state::standing_counts(b);
    loads_code::one_more(counts, t - 1)
}

// A newcomer of type t joins engine e, which takes it.
pub fn join(b: Board, t: usize, e: usize) -> Turn
    requires { CheckedNewcomer b t × OnEngine b e × (takes b t e ≡ true) }
    ensures { (result.answer ≡ Ok (Some e)) × (result.board ≡ with_load b e (one_more (t - 1) (load_at b e))) }
{
    let counts = load_with(b, t, e);
    Turn {
        answer: Ok(Some(e)),
        board: with_load(b, e, counts),
    }
}

// What engine e would hold without one of its instances of type t.
fn load_without(b: Board, t: usize, e: usize) -> [u16; TYPE_LIMIT]
    requires { OnEngine b e × (known_type b.system t ≡ true) }
    ensures { result ≡ one_less (t - 1) (load_at b e) }
{
    let counts = state::load_at(&b, e);
    loads_code::one_less(counts, t - 1)
}

// One instance of type t leaves engine e.
pub fn leave(b: Board, t: usize, e: usize) -> Turn
    requires { OnEngine b e × (known_type b.system t ≡ true) }
    ensures { (result.answer ≡ Ok None) × (result.board ≡ with_load b e (one_less (t - 1) (load_at b e))) }
{
    let counts = load_without(b, t, e);
    Turn {
        answer: Ok(None),
        board: with_load(b, e, counts),
    }
}

// The whole board becomes the recovery of a load within the ceilings; 24 where there is none.
pub fn reseat(
    b: Board,
    counts: [u16; TYPE_LIMIT],
    rows: &mut [u16],
    predecessors: &mut [u16],
) -> Turn
    requires { (true_board b ≡ true) × (long_enough b.system (lent rows.old predecessors.old) ≡ true) × (within counts (ceilings_of b.system) ≡ true) }
    ensures { Does (reseated b counts (lent rows.old predecessors.old)) result (lent rows.new predecessors.new) }
{
    let Some(found) = table_code::place(rows, predecessors, b.system, engines_of(b), counts) else {
        return refuse(b, Refusal::State(24));
    };
    let loads = found.loads;
    Turn {
        answer: Ok(None),
        board: Board { loads, ..b },
    }
}

// No engine takes a newcomer of type t: 23 if a good assignment of all with it exists, else 24.
pub fn no_engine(b: Board, t: usize, rows: &mut [u16], predecessors: &mut [u16]) -> Turn
    requires { CheckedNewcomer b t × (long_enough b.system (lent rows.old predecessors.old) ≡ true) }
    ensures { Does (crowded b t (lent rows.old predecessors.old)) result (lent rows.new predecessors.new) }
{
    let counts = with_newcomer(b, t);
    let engines = engines_of(b);
    let found = table_code::place(rows, predecessors, b.system, engines, counts);
    if found.is_some() {
        return refuse(b, Refusal::State(23));
    }
    refuse(b, Refusal::State(24))
}

// Engine e goes out of service, or is put back.
pub fn move_engine(b: Board, e: usize, out: bool) -> Turn
    requires { (1 ≤ e) × (e ≤ engine_limit) }
    ensures { (result.answer ≡ Ok None) × (result.board ≡ with_mark b e out) }
{
    let mut next = b;
    next.marks[e - 1] = out;
    Turn {
        answer: Ok(None),
        board: next,
    }
}
