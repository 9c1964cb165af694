// Opening a board, and the six calls: admit, seat, retire, repack, withdraw, restore. Each checks first and works second.
ghost use Rattle.std.specs.Prelude.{[]};
ghost use Rattle.system.specs.Layout.{read_file};
ghost use Rattle.system.specs.Outcome.{outcome_of};
ghost use Rattle.partition.specs.Lent.{lent};
ghost use Rattle.board.specs.Calls.{admit_of, seat_of, retire_of, repack_of, withdraw_of, restore_of, gave, Opens, Does};
ghost use Rattle.board.specs.Meaning.{OpenMeans, AdmitPromises, SeatPromises, RetirePromises, RepackPromises, WithdrawPromises, RestorePromises};

use crate::{checks, state, work};
// A call answers a Turn, and no Result by `?`: document 01's demand 1 promises the board on a refusal too (`Does`).
use board::{Board, Turn};
use system::Refusal;

// The fresh board of a system file, or the blank board where the file is refused.
pub fn open_board(file: &[u8]) -> Turn
    ensures opens { Opens (read_file file.now) result }
    ensures open_means { OpenMeans (read_file file.now) (outcome_of result.answer) result.board }
{
    let opened = system_code::read_system(file);
    Turn {
        answer: opened.answer,
        board: work::empty_board(opened.system),
    }
}

// Admit: the newcomer goes to the lowest-numbered engine in service that takes it; the table is filled only if there is none.
pub fn admit(b: Board, t: usize, rows: &mut [u16], predecessors: &mut [u16]) -> Turn
    ensures does { Does (admit_of b t (lent rows.old predecessors.old)) result (lent rows.new predecessors.new) }
    ensures admit_promises { AdmitPromises b t (lent rows.old predecessors.old) (gave result (lent rows.new predecessors.new)) }
{
    if let Err(why) = checks::check_newcomer(b, t, rows.len(), predecessors.len()) {
        return work::refuse(b, why);
    }
    let Some(e) = work::first_engine(b, t) else {
        return work::no_engine(b, t, rows, predecessors);
    };
    work::join(b, t, e)
}

// Seat: the whole board becomes the recovery of what stands with the newcomer.
pub fn seat(b: Board, t: usize, rows: &mut [u16], predecessors: &mut [u16]) -> Turn
    ensures does { Does (seat_of b t (lent rows.old predecessors.old)) result (lent rows.new predecessors.new) }
    ensures seat_promises { SeatPromises b t (lent rows.old predecessors.old) (gave result (lent rows.new predecessors.new)) }
{
    if let Err(why) = checks::check_newcomer(b, t, rows.len(), predecessors.len()) {
        return work::refuse(b, why);
    }
    let counts = work::with_newcomer(b, t);
    work::reseat(b, counts, rows, predecessors)
}

// Retire: one instance of type t leaves engine e.
pub fn retire(b: Board, t: usize, e: usize) -> Turn
    ensures does { Does (retire_of b t e (lent [] [])) result (lent [] []) }
    ensures retire_promises { RetirePromises b t e (gave result (lent [] [])) }
{
    if let Err(why) = checks::check_retire(b, t, e) {
        return work::refuse(b, why);
    }
    work::leave(b, t, e)
}

// Repack: the board becomes the recovery of what stands.
pub fn repack(b: Board, rows: &mut [u16], predecessors: &mut [u16]) -> Turn
    ensures does { Does (repack_of b (lent rows.old predecessors.old)) result (lent rows.new predecessors.new) }
    ensures repack_promises { RepackPromises b (lent rows.old predecessors.old) (gave result (lent rows.new predecessors.new)) }
{
    if let Err(why) = checks::check_repack(b, rows.len(), predecessors.len()) {
        return work::refuse(b, why);
    }
    let counts = state::standing_counts(b);
    work::reseat(b, counts, rows, predecessors)
}

// Withdraw: engine e, which holds nothing, goes out of service.
pub fn withdraw(b: Board, e: usize) -> Turn
    ensures does { Does (withdraw_of b e (lent [] [])) result (lent [] []) }
    ensures withdraw_promises { WithdrawPromises b e (gave result (lent [] [])) }
{
    if let Err(why) = checks::check_withdraw(b, e) {
        return work::refuse(b, why);
    }
    work::move_engine(b, e, true)
}

// Restore: engine e is put back into service.
pub fn restore(b: Board, e: usize) -> Turn
    ensures does { Does (restore_of b e (lent [] [])) result (lent [] []) }
    ensures restore_promises { RestorePromises b e (gave result (lent [] [])) }
{
    if let Err(why) = checks::check_restore(b, e) {
        return work::refuse(b, why);
    }
    work::move_engine(b, e, false)
}
