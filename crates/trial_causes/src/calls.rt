// The calls over tables that are dirty, and of which first entries of each part are lent; and what was left in them.
use crate::as_promised::{why_no_plan, why_no_room};
use board::Board;
use causes::Cause;
use system::{Answer, COLUMN_LIMIT, Refusal};
use trial::lent::{Lengths, Parts};
use trial_records::{front_number, mixed_parts};

// The entries of each part: more than the columns of any system.
const LONG: usize = 5100;

// What a call left in the table: all as it was lent; the number of the first entries, one for each column that a system can have, where one of them is
// another; or an entry past those that is another.
#[derive(Clone, Copy)]
pub enum Left {
    AsLent,
    Front(usize),
    ChangedPast,
}

// What a call told, and what it left in the table.
#[derive(Clone, Copy)]
pub struct Told {
    pub answer: Result<Cause, Refusal>,
    pub left: Left,
}

fn left_in(table: &Parts<LONG>) -> Left {
    let old = mixed_parts::<LONG>();
    if *table == old {
        Left::AsLent
    } else if table.kept_from(&old, COLUMN_LIMIT) {
        Left::Front(front_number(table))
    } else {
        Left::ChangedPast
    }
}

// What a call tells over a table of which so many entries of each part are lent.
fn told_over<F: FnOnce(&mut [u16], &mut [u16]) -> Result<Cause, Refusal>>(
    n: Lengths,
    call: F,
) -> Told
    requires { F.IsAlwaysCallable call }
{
    let mut table = mixed_parts::<LONG>();
    let answer = table.lent(n, call);
    Told {
        answer,
        left: left_in(&table),
    }
}

// Why a file has no plan.
pub fn plan_told(file: &[u8], n: Lengths) -> Told {
    told_over(
        n,
        |rows, predecessors| why_no_plan(file, rows, predecessors),
    )
}

// Why a board has no room for a newcomer.
pub fn room_told(b: Board, t: usize, n: Lengths) -> Told {
    told_over(
        n,
        |rows, predecessors| why_no_room(b, t, rows, predecessors),
    )
}

// What another call answers there: a plan, an admit or a seat.
pub fn answered<F: FnOnce(&mut [u16], &mut [u16]) -> Answer>(n: Lengths, call: F) -> Answer
    requires { F.IsAlwaysCallable call }
{
    mixed_parts::<LONG>().lent(n, call)
}
