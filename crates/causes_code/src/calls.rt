// The two calls: from a system file, and from a board with a newcomer's type. Each checks first, then fills both parts of the table, which tell whether a
// good assignment exists.
ghost use Rattle.system.specs.Layout.{read_file};
ghost use Rattle.partition.specs.Lent.{lent};
ghost use Rattle.causes.specs.Meaning.{PlanCausePromises, RoomCausePromises};

use crate::facts::cause_of;
use board::Board;
use causes::Cause;
use system::Refusal;

// Why a system file has no plan: the cause, 0 where it has one; or refused 1 to 10, 31 and 41 to 43, then 11. The parts need not be clean; unless refused
// they are left filled.
pub fn why_no_plan(
    file: &[u8],
    rows: &mut [u16],
    predecessors: &mut [u16],
) -> Result<Cause, Refusal>
    ensures { PlanCausePromises (read_file file.now) (lent rows.old predecessors.old) result (lent rows.new predecessors.new) }
{
    let opened = system_code::read_system(file);
    opened.answer?;
    let y = opened.system;
    table_code::table_check(y, rows.len(), predecessors.len())?;
    let engines = table_code::engines_to(y.engines);
    let counts = table_code::ceilings_of(y);
    let found = table_code::place(rows, predecessors, y, engines, counts);
    Ok(cause_of(y, y.engines, counts, found.is_some()))
}

// Why a board has no room for a newcomer of type t: the cause, 0 where it has; or refused 20, 13, 11, 21. The board is only read. The parts need not be clean;
// unless refused they are left filled.
pub fn why_no_room(
    b: Board,
    t: usize,
    rows: &mut [u16],
    predecessors: &mut [u16],
) -> Result<Cause, Refusal>
    ensures { RoomCausePromises b t (lent rows.old predecessors.old) result (lent rows.new predecessors.new) }
{
    board_code::check_newcomer(b, t, rows.len(), predecessors.len())?;
    let y = b.system;
    let engines = board_code::engines_of(b);
    let counts = board_code::with_newcomer(b, t);
    let found = table_code::place(rows, predecessors, y, engines, counts);
    Ok(cause_of(y, engines.count, counts, found.is_some()))
}
