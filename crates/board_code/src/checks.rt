// What a call is refused with before any work: one function for each number, and the orders that string them: document 01's under "From the
// state", and those of request 2026-07.
ghost use Rattle.std.specs.Prelude.{◌≡◌, true};
ghost use Rattle.system.specs.Outcome.{checked_of};
ghost use Rattle.board.specs.Truth.{true_board};
ghost use Rattle.board.specs.Calls.{known_type, board_check, type_check, engine_check, ceiling_check, held_check, state_check, empty_check};
ghost use Rattle.board.specs.Calls.{check_newcomer, check_retire, check_repack, check_restore, check_withdraw};
ghost use Rattle.board.specs.Inner.{OnEngine};

use crate::state;
use board::Board;
use system::{Refusal, System};

// 20: the board handed in is not true.
fn board_check(b: Board) -> Result<(), Refusal>
    ensures { checked_of result ≡ board_check b }
{
    if state::true_board(b) {
        return Ok(());
    }
    Err(Refusal::State(20))
}

// 13: t is no type number, 1 to k. This and the next stay two: each refusal is said in one place, and a number to pass along says no more.
fn type_check(y: System, t: usize) -> Result<(), Refusal>
    ensures { checked_of result ≡ type_check y t }
{
    if (1 <= t) & (t <= y.typecount) {
        return Ok(());
    }
    Err(Refusal::Input(13))
}

// 14: e is no engine number, 1 to m.
fn engine_check(y: System, e: usize) -> Result<(), Refusal>
    ensures { checked_of result ≡ engine_check y e }
{
    if (1 <= e) & (e <= y.engines) {
        return Ok(());
    }
    Err(Refusal::Input(14))
}

// 21: as many of type t stand as its ceiling allows.
fn ceiling_check(b: Board, t: usize) -> Result<(), Refusal>
    requires { (true_board b ≡ true) × (known_type b.system t ≡ true) }
    ensures { checked_of result ≡ ceiling_check b t }
{
    let i = t - 1;
    let counts = state::standing_counts(b);
    if counts[i] < b.system.types[i].ceiling {
        return Ok(());
    }
    Err(Refusal::State(21))
}

// 22: engine e holds none of type t. What is asked here is asked at `load_without` and `leave` too: a check that has passed answers nothing that could hold it.
fn held_check(b: Board, t: usize, e: usize) -> Result<(), Refusal>
    requires { OnEngine b e × (known_type b.system t ≡ true) }
    ensures { checked_of result ≡ held_check b t e }
{
    let i = t - 1;
    let counts = state::load_at(&b, e);
    if 1 <= counts[i] {
        return Ok(());
    }
    Err(Refusal::State(22))
}

// 36: engine e is already in the state wanted, out of service or not.
fn state_check(b: Board, e: usize, out: bool) -> Result<(), Refusal>
    requires { OnEngine b e }
    ensures { checked_of result ≡ state_check b e out }
{
    if state::marked(&b, e) != out {
        return Ok(());
    }
    Err(Refusal::State(36))
}

// 35: engine e still holds an instance.
fn empty_check(b: Board, e: usize) -> Result<(), Refusal>
    requires { OnEngine b e }
    ensures { checked_of result ≡ empty_check b e }
{
    let counts = state::load_at(&b, e);
    if loads_code::holds_none(counts) {
        return Ok(());
    }
    Err(Refusal::State(35))
}

// Admit and seat: 20, 13, 11, 21, for parts of `rows` and of `predecessors` entries.
pub fn check_newcomer(b: Board, t: usize, rows: usize, predecessors: usize) -> Result<(), Refusal>
    ensures { checked_of result ≡ check_newcomer b t rows predecessors }
{
    board_check(b)?;
    type_check(b.system, t)?;
    table_code::table_check(b.system, rows, predecessors)?;
    ceiling_check(b, t)
}

// Retire: 20, 13, 14, 22.
pub fn check_retire(b: Board, t: usize, e: usize) -> Result<(), Refusal>
    ensures { checked_of result ≡ check_retire b t e }
{
    board_check(b)?;
    type_check(b.system, t)?;
    engine_check(b.system, e)?;
    held_check(b, t, e)
}

// Repack: 20, 11, for such parts.
pub fn check_repack(b: Board, rows: usize, predecessors: usize) -> Result<(), Refusal>
    ensures { checked_of result ≡ check_repack b rows predecessors }
{
    board_check(b)?;
    table_code::table_check(b.system, rows, predecessors)
}

// Restore: 20, 14, 36.
pub fn check_restore(b: Board, e: usize) -> Result<(), Refusal>
    ensures { checked_of result ≡ check_restore b e }
{
    board_check(b)?;
    engine_check(b.system, e)?;
    state_check(b, e, false)
}

// Withdraw: 20, 14, 36, 35.
pub fn check_withdraw(b: Board, e: usize) -> Result<(), Refusal>
    ensures { checked_of result ≡ check_withdraw b e }
{
    board_check(b)?;
    engine_check(b.system, e)?;
    state_check(b, e, true)?;
    empty_check(b, e)
}
