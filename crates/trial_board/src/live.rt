// One call, on the board under test and in the ledger beside it: the answer, the board and the table are compared.
use board::{Board, Turn};
use brute::ledger::{Call, Kind, Ledger};
use brute::{ledger, recovery};
use system::{Answer, Refusal, System};
use trial::lent::{Lengths, front_mut};
use trial::tables::Lent;
use trial::{files, tables};

// The board under test, the ledger beside it, and the table that is lent to the next call.
#[derive(Clone, Copy)]
pub struct Live {
    pub board: Board,
    pub ledger: Ledger,
    pub table: Lent,
}

// What one call comes to: its answer, and whether all is as the ledger says; the rest stands there either way.
#[derive(Clone, Copy)]
pub struct Step {
    pub live: Live,
    pub answer: Answer,
    pub right: bool,
}

impl Live {
    // The fresh board of a file, and a fresh ledger of the system that the trial's own reader finds in it: a board that is opened with another system differs
    // from its ledger.
    pub fn of(file: &[u8]) -> Live {
        Live {
            board: board_code::open_board(file).board,
            ledger: ledger::fresh(files::reading_of(file).system),
            table: tables::dirty_table(),
        }
    }
}

fn called(b: Board, c: Call, rows: &mut [u16], predecessors: &mut [u16]) -> Turn {
    match c.kind {
        Kind::Admit => board_code::admit(b, c.task, rows, predecessors),
        Kind::Seat => board_code::seat(b, c.task, rows, predecessors),
        Kind::Retire => board_code::retire(b, c.task, c.engine),
        Kind::Repack => board_code::repack(b, rows, predecessors),
        Kind::Withdraw => board_code::withdraw(b, c.engine),
        Kind::Restore => board_code::restore(b, c.engine),
    }
}

// The call leaves the table filled: an accepted seat or repack, 23 and 24.
fn fills(c: Call, answer: Answer) -> bool {
    match answer {
        Ok(None) => (c.kind == Kind::Seat) | (c.kind == Kind::Repack),
        Err(Refusal::State(23 | 24)) => true,
        _ => false,
    }
}

// Both parts are filled as the brute search says: rows are those of the engines in service, and a column that they place not at all has one more than all
// engines of the platform.
fn right_parts(l: Ledger, table: Lent) -> bool {
    let none = l.system.engines.wrapping_add(1);
    recovery::right_parts(ledger::in_service(l), none, table.rows, table.predecessors)
}

// The table after a call on the board of this ledger: both parts are unchanged past the columns, or all of them where the call does not fill; with
// `cells` every entry is compared.
fn right_table(l: Ledger, old: Lent, new: Lent, filled: bool, cells: bool) -> bool {
    if !filled {
        return tables::same_from(old, new, 0);
    }
    let right = !cells || right_parts(l, new);
    right & tables::same_from(old, new, recovery::columns_of(l.system))
}

// The board is the ledger's: its system, its loads with their sums, its marks, idle engines without a mark past m. The two are types of their own, with no `==`
// between them: the ledger is written apart from the code under test.
fn same_board(b: Board, l: Ledger) -> bool {
    (b.system == l.system) & (b.loads == l.loads) & (b.marks == l.marks)
}

// Each part has an entry for each column.
fn long_enough(y: System, n: Lengths) -> bool {
    let columns = recovery::columns_of(y);
    (columns <= n.rows) & (columns <= n.predecessors)
}

// One call, on the board and in the ledger. Both parts must be as long as the columns, and are filled for the engines in service.
pub fn played(live: Live, c: Call, n: Lengths, cells: bool) -> Step {
    let l = live.ledger;
    let mut table = live.table;
    let turn = called(
        live.board,
        c,
        front_mut(&mut table.rows, n.rows),
        front_mut(&mut table.predecessors, n.predecessors),
    );
    let entry = ledger::entered(l, c, long_enough(l.system, n));
    let right = (turn.answer == entry.answer)
        & same_board(turn.board, entry.ledger)
        & right_table(l, live.table, table, fills(c, turn.answer), cells);
    Step {
        live: Live {
            board: turn.board,
            ledger: entry.ledger,
            table,
        },
        answer: turn.answer,
        right,
    }
}
