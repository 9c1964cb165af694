// Opening a board and the six calls with all that they promise, of every file, board, number and table: a contract that said it of some alone would not prove
// these. Every case of the
// trial calls them.
ghost use Rattle.std.specs.Prelude.{[]};
ghost use Rattle.system.specs.Layout.{read_file};
ghost use Rattle.system.specs.Outcome.{outcome_of};
ghost use Rattle.partition.specs.Lent.{lent};
ghost use Rattle.board.specs.Calls.{admit_of, seat_of, retire_of, repack_of, withdraw_of, restore_of, gave, Opens, Does};
ghost use Rattle.board.specs.Meaning.{OpenMeans, AdmitPromises, SeatPromises, RetirePromises, RepackPromises, WithdrawPromises, RestorePromises};

use board::{Board, Turn};

pub fn open_board(file: &[u8]) -> Turn
    ensures opens { Opens (read_file file.now) result }
    ensures open_means { OpenMeans (read_file file.now) (outcome_of result.answer) result.board }
{
    board_code::open_board(file)
}

pub fn admit(b: Board, t: usize, rows: &mut [u16], predecessors: &mut [u16]) -> Turn
    ensures does { Does (admit_of b t (lent rows.old predecessors.old)) result (lent rows.new predecessors.new) }
    ensures admit_promises { AdmitPromises b t (lent rows.old predecessors.old) (gave result (lent rows.new predecessors.new)) }
{
    board_code::admit(b, t, rows, predecessors)
}

pub fn seat(b: Board, t: usize, rows: &mut [u16], predecessors: &mut [u16]) -> Turn
    ensures does { Does (seat_of b t (lent rows.old predecessors.old)) result (lent rows.new predecessors.new) }
    ensures seat_promises { SeatPromises b t (lent rows.old predecessors.old) (gave result (lent rows.new predecessors.new)) }
{
    board_code::seat(b, t, rows, predecessors)
}

pub fn retire(b: Board, t: usize, e: usize) -> Turn
    ensures does { Does (retire_of b t e (lent [] [])) result (lent [] []) }
    ensures retire_promises { RetirePromises b t e (gave result (lent [] [])) }
{
    board_code::retire(b, t, e)
}

pub fn repack(b: Board, rows: &mut [u16], predecessors: &mut [u16]) -> Turn
    ensures does { Does (repack_of b (lent rows.old predecessors.old)) result (lent rows.new predecessors.new) }
    ensures repack_promises { RepackPromises b (lent rows.old predecessors.old) (gave result (lent rows.new predecessors.new)) }
{
    board_code::repack(b, rows, predecessors)
}

pub fn withdraw(b: Board, e: usize) -> Turn
    ensures does { Does (withdraw_of b e (lent [] [])) result (lent [] []) }
    ensures withdraw_promises { WithdrawPromises b e (gave result (lent [] [])) }
{
    board_code::withdraw(b, e)
}

pub fn restore(b: Board, e: usize) -> Turn
    ensures does { Does (restore_of b e (lent [] [])) result (lent [] []) }
    ensures restore_promises { RestorePromises b e (gave result (lent [] [])) }
{
    board_code::restore(b, e)
}
