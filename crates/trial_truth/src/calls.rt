// The six calls on a board, and whether `true_board` calls it true: a line with whether all refuse it 20 and leave everything as it was, or with what they
// answer, and whether
// numbers that are no type's and no engine's, but would be 1 where they were cut to 8, 16 or 32 bits, are refused 13 and 14.
use board::{Board, Turn};
use board_code::{admit, repack, restore, retire, seat, true_board, withdraw};
use system::{COLUMN_LIMIT, Refusal};
use trial::lent::Parts;
use trial::say;

// The table before it is lent.
const OLD: Parts<COLUMN_LIMIT> = Parts {
    rows: [9; COLUMN_LIMIT],
    predecessors: [8; COLUMN_LIMIT],
};

// Numbers that are 1 in 8, in 16 and in 32 bits.
const WIDE: [usize; 3] = [257, 65537, 4294967297];

// A call is refused so, with the board as it was.
fn refused(t: Turn, why: Refusal, b: Board) -> bool {
    t == Turn {
        answer: Err(why),
        board: b,
    }
}

// Refused 20.
fn refuses(t: Turn, b: Board) -> bool {
    refused(t, Refusal::State(20), b)
}

// The six calls, of type 1 and engine 1, over one table.
fn six_calls(b: Board, table: &mut Parts<COLUMN_LIMIT>) -> [Turn; 6] {
    [
        admit(b, 1, &mut table.rows, &mut table.predecessors),
        seat(b, 1, &mut table.rows, &mut table.predecessors),
        repack(b, &mut table.rows, &mut table.predecessors),
        retire(b, 1, 1),
        withdraw(b, 1),
        restore(b, 1),
    ]
}

// All six calls refuse the board, those that take an engine out of service and back also where the number is no engine's, and the table is as it was lent.
fn all_refuse(b: Board) -> bool {
    let mut table = OLD;
    let turns = six_calls(b, &mut table);
    turns.iter().all(|turn| refuses(*turn, b))
        && refuses(withdraw(b, 0), b)
        && refuses(restore(b, 17), b)
        && table == OLD
}

// Whether the board is called true.
fn say_truth(rt: &HostRuntime, b: Board) {
    if true_board(b) {
        say::say(rt, b" true");
    } else {
        say::say(rt, b" untrue");
    }
}

pub fn say_board(rt: &HostRuntime, name: &[u8], b: Board) {
    say::say(rt, name);
    say::say(rt, b":");
    say_truth(rt, b);
    if all_refuse(b) {
        say::say(rt, b" refused 20\n");
    } else {
        say::say(rt, b" NOT REFUSED 20\n");
    }
}

// A true board refuses 13 a type of this number and 14 an engine of it, where there are none so large, and both parts of the table stay as they were.
fn none_numbered(b: Board, n: usize) -> bool {
    let mut table = OLD;
    let no_type = [
        admit(b, n, &mut table.rows, &mut table.predecessors),
        seat(b, n, &mut table.rows, &mut table.predecessors),
        retire(b, n, 1),
    ];
    let no_engine = [retire(b, 1, n), withdraw(b, n), restore(b, n)];
    no_type
        .iter()
        .all(|turn| refused(*turn, Refusal::Input(13), b))
        && no_engine
            .iter()
            .all(|turn| refused(*turn, Refusal::Input(14), b))
        && table == OLD
}

fn say_wide(rt: &HostRuntime, b: Board) {
    if WIDE.iter().all(|n| none_numbered(b, *n)) {
        say::say(rt, b" wide 13 14");
    } else {
        say::say(rt, b" WIDE NUMBER TAKEN");
    }
}

// The six answers on a board that is true, and to numbers far past its types and engines.
pub fn say_true(rt: &HostRuntime, name: &[u8], b: Board) {
    let mut table = OLD;
    say::say(rt, name);
    say_truth(rt, b);
    for turn in six_calls(b, &mut table) {
        say::say_answer(rt, turn.answer);
    }
    say_wide(rt, b);
    say::say(rt, b"\n");
}
