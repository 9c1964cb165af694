// Boards, causes, counts and runs. The trials of these calls have proved clients of their own, of the same words; here it is also said plainly of which
// numbers 13 and 14 are
// said, of which lengths 11 and 38, what a count leaves in its part, and which runs are refused and what the others report.
ghost use Rattle.std.specs.Prelude.{ℕ, ◌≤◌, [], true, ◌≡◌, ◌↔◌};
ghost use Rattle.system.specs.Layout.{read_file, unread};
ghost use Rattle.system.specs.Outcome.{refused, from_input, outcome_of};
ghost use Rattle.partition.specs.Lent.{lent};
ghost use Rattle.board.specs.Truth.{true_board};
ghost use Rattle.board.specs.Words.{IsTrue};
ghost use Rattle.board.specs.Calls.{admit_of, seat_of, retire_of, repack_of, withdraw_of, restore_of, gave, Opens, Does};
ghost use Rattle.board.specs.Meaning.{OpenMeans, AdmitPromises, SeatPromises, RetirePromises, RepackPromises, WithdrawPromises, RestorePromises};
ghost use Rattle.causes.specs.Causes.{cause_number, cause_outcome_of};
ghost use Rattle.causes.specs.Meaning.{PlanCausePromises, RoomCausePromises};
ghost use Rattle.counting.specs.Meaning.{counted_outcome, CountPromises};
ghost use Rattle.deadlines.specs.Outcome.{run_outcome_of};
ghost use Rattle.deadlines.specs.Meaning.{RunPromises};
ghost use Rattle.clients.specs.Wide.{Says11, BoardSays11, Says13, Says14, Says38, KeptPastColumns, NumberedAsAsked, NothingOpened, BoardKept};
ghost use Rattle.clients.specs.Wide.{RunsPlainly};

use board::{Board, Turn};
use causes::Cause;
use counting::Counts;
use runs::Report;
use system::{Refusal, TYPE_LIMIT};

pub fn true_board(b: Board) -> bool
    ensures value { result ≡ true_board b }
    ensures variant { (result ≡ true) ↔ IsTrue b }
{
    board_code::true_board(b)
}

pub fn open_board(file: &[u8]) -> Turn
    ensures opens { Opens (read_file file.now) result }
    ensures open_means { OpenMeans (read_file file.now) (outcome_of result.answer) result.board }
    ensures by_index { (n : ℕ) → read_file file.now ≡ unread n → NothingOpened result.board }
{
    board_code::open_board(file)
}

pub fn admit(b: Board, t: usize, rows: &mut [u16], predecessors: &mut [u16]) -> Turn
    ensures does { Does (admit_of b t (lent rows.old predecessors.old)) result (lent rows.new predecessors.new) }
    ensures admit_promises { AdmitPromises b t (lent rows.old predecessors.old) (gave result (lent rows.new predecessors.new)) }
    ensures says13 { Says13 b t (outcome_of result.answer) × ((1 ≤ t) × (t ≤ b.system.typecount) → BoardSays11 b rows.old predecessors.old (outcome_of result.answer))
        × BoardKept b (outcome_of result.answer) result.board }
{
    board_code::admit(b, t, rows, predecessors)
}

pub fn seat(b: Board, t: usize, rows: &mut [u16], predecessors: &mut [u16]) -> Turn
    ensures does { Does (seat_of b t (lent rows.old predecessors.old)) result (lent rows.new predecessors.new) }
    ensures seat_promises { SeatPromises b t (lent rows.old predecessors.old) (gave result (lent rows.new predecessors.new)) }
    ensures says13 { Says13 b t (outcome_of result.answer) × ((1 ≤ t) × (t ≤ b.system.typecount) → BoardSays11 b rows.old predecessors.old (outcome_of result.answer))
        × BoardKept b (outcome_of result.answer) result.board }
{
    board_code::seat(b, t, rows, predecessors)
}

pub fn retire(b: Board, t: usize, e: usize) -> Turn
    ensures does { Does (retire_of b t e (lent [] [])) result (lent [] []) }
    ensures retire_promises { RetirePromises b t e (gave result (lent [] [])) }
    ensures says13 { Says13 b t (outcome_of result.answer) × ((1 ≤ t) × (t ≤ b.system.typecount) → Says14 b e (outcome_of result.answer)) × BoardKept b (outcome_of result.answer) result.board }
{
    board_code::retire(b, t, e)
}

pub fn repack(b: Board, rows: &mut [u16], predecessors: &mut [u16]) -> Turn
    ensures does { Does (repack_of b (lent rows.old predecessors.old)) result (lent rows.new predecessors.new) }
    ensures repack_promises { RepackPromises b (lent rows.old predecessors.old) (gave result (lent rows.new predecessors.new)) }
    ensures board_says11 { BoardSays11 b rows.old predecessors.old (outcome_of result.answer) × BoardKept b (outcome_of result.answer) result.board }
{
    board_code::repack(b, rows, predecessors)
}

pub fn withdraw(b: Board, e: usize) -> Turn
    ensures does { Does (withdraw_of b e (lent [] [])) result (lent [] []) }
    ensures withdraw_promises { WithdrawPromises b e (gave result (lent [] [])) }
    ensures says14 { Says14 b e (outcome_of result.answer) × BoardKept b (outcome_of result.answer) result.board }
{
    board_code::withdraw(b, e)
}

pub fn restore(b: Board, e: usize) -> Turn
    ensures does { Does (restore_of b e (lent [] [])) result (lent [] []) }
    ensures restore_promises { RestorePromises b e (gave result (lent [] [])) }
    ensures says14 { Says14 b e (outcome_of result.answer) × BoardKept b (outcome_of result.answer) result.board }
{
    board_code::restore(b, e)
}

pub fn why_no_plan(
    file: &[u8],
    rows: &mut [u16],
    predecessors: &mut [u16],
) -> Result<Cause, Refusal>
    ensures plan_cause_promises { PlanCausePromises (read_file file.now) (lent rows.old predecessors.old) result (lent rows.new predecessors.new) }
    ensures says11 { Says11 (read_file file.now) rows.old predecessors.old (cause_outcome_of result ≡ refused from_input 11) }
{
    causes_code::why_no_plan(file, rows, predecessors)
}

pub fn why_no_room(
    b: Board,
    t: usize,
    rows: &mut [u16],
    predecessors: &mut [u16],
) -> Result<Cause, Refusal>
    ensures room_cause_promises { RoomCausePromises b t (lent rows.old predecessors.old) result (lent rows.new predecessors.new) }
    ensures says13 { Says13 b t (cause_outcome_of result) × ((1 ≤ t) × (t ≤ b.system.typecount) → BoardSays11 b rows.old predecessors.old (cause_outcome_of result)) }
{
    causes_code::why_no_room(b, t, rows, predecessors)
}

pub fn cause_number(cause: Cause) -> u8
    ensures value { result ≡ cause_number cause }
    ensures numbered_as_asked { NumberedAsAsked cause result }
{
    causes_code::cause_number(cause)
}

pub fn count_assignments(file: &[u8], part: &mut [u64]) -> Result<Counts, Refusal>
    ensures count_promises { CountPromises (read_file file.now) part.old result part.new }
    ensures says38 { Says38 (read_file file.now) part.old (counted_outcome result)
        × KeptPastColumns (read_file file.now) part.old part.new (counted_outcome result) }
{
    counting_code::count_assignments(file, part)
}

pub fn run_engine(file: &[u8], counts: [u16; TYPE_LIMIT], ticks: usize) -> Result<Report, Refusal>
    ensures run_promises { RunPromises (read_file file.now) counts ticks result }
    ensures runs_plainly { RunsPlainly (read_file file.now) counts ticks (run_outcome_of result) }
{
    deadlines_code::run_engine(file, counts, ticks)
}
