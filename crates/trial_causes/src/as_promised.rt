// The two calls with all that they promise, of every file, board, type and table: a contract that said it of some alone would not prove these. Every case of
// the trial is
// told by them.
ghost use Rattle.system.specs.Layout.{read_file};
ghost use Rattle.partition.specs.Lent.{lent};
ghost use Rattle.causes.specs.Meaning.{PlanCausePromises, RoomCausePromises};

use board::Board;
use causes::Cause;
use system::Refusal;

pub fn why_no_plan(
    file: &[u8],
    rows: &mut [u16],
    predecessors: &mut [u16],
) -> Result<Cause, Refusal>
    ensures { PlanCausePromises (read_file file.now) (lent rows.old predecessors.old) result (lent rows.new predecessors.new) }
{
    causes_code::why_no_plan(file, rows, predecessors)
}

pub fn why_no_room(
    b: Board,
    t: usize,
    rows: &mut [u16],
    predecessors: &mut [u16],
) -> Result<Cause, Refusal>
    ensures { RoomCausePromises b t (lent rows.old predecessors.old) result (lent rows.new predecessors.new) }
{
    causes_code::why_no_room(b, t, rows, predecessors)
}
