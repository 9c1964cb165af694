// A list of calls from the fresh board of a file, three bytes for each and a space: its kind (a, s, r for retire, p for repack, w for withdraw, b for
// restore, which puts an engine back), its type and its engine. A number is a letter past `0`, so that `0` is 0 and `@` is 16; `x` is 255, and `-` none.
// Rows and predecessors go along as two slices, as the calls under test take them.
// Prints what opening and each call answer, as a code of `trial::say`, and then what each engine holds and whether it is out of service.
use board::{Board, Turn};
use board_code::{admit, open_board, repack, restore, retire, seat, withdraw};
use trial::say;
use trial::say::code_of;

// The calls of a list at most.
const CALLS: usize = 64;

// A call, with its type and its engine.
#[derive(Clone, Copy)]
enum Call {
    Admit(usize),
    Seat(usize),
    Retire(usize, usize),
    Repack,
    Withdraw(usize),
    Restore(usize),
}

// The number at a place of a call's bytes. As that of trial_limits but for the letter past all others: one for both would take letter and number at each call.
fn number_at(bytes: &[u8], i: usize) -> usize {
    match bytes.get(i) {
        None => 0,
        Some(b'x') => 255,
        Some(byte) => usize::from(byte.saturating_sub(b'0')),
    }
}

impl Call {
    fn of(bytes: &[u8]) -> Call {
        let t = number_at(bytes, 1);
        let e = number_at(bytes, 2);
        match bytes.first() {
            Some(b'a') => Call::Admit(t),
            Some(b's') => Call::Seat(t),
            Some(b'r') => Call::Retire(t, e),
            Some(b'p') => Call::Repack,
            Some(b'w') => Call::Withdraw(e),
            _ => Call::Restore(e),
        }
    }

    fn made(self, b: Board, rows: &mut [u16], predecessors: &mut [u16]) -> Turn {
        match self {
            Call::Admit(t) => admit(b, t, rows, predecessors),
            Call::Seat(t) => seat(b, t, rows, predecessors),
            Call::Retire(t, e) => retire(b, t, e),
            Call::Repack => repack(b, rows, predecessors),
            Call::Withdraw(e) => withdraw(b, e),
            Call::Restore(e) => restore(b, e),
        }
    }
}

// All calls of a list; the board after them.
fn say_calls(
    rt: &HostRuntime,
    b: Board,
    list: &[u8],
    rows: &mut [u16],
    predecessors: &mut [u16],
) -> Board {
    let mut board = b;
    for bytes in list.chunks(4).take(CALLS) {
        let turn = Call::of(bytes).made(board, rows, predecessors);
        say::say_also(rt, code_of(turn.answer));
        board = turn.board;
    }
    board
}

// The engines of a board, with a word for one that is out of service.
fn say_engines(rt: &HostRuntime, b: Board) {
    for (load, out) in b.loads.iter().zip(&b.marks).take(b.system.engines) {
        say::say_load(rt, *load, b.system.typecount);
        if *out {
            say::say(rt, b" out");
        }
    }
}

// The text is the list.
pub fn say_list(
    rt: &HostRuntime,
    file: &[u8],
    text: &[u8],
    rows: &mut [u16],
    predecessors: &mut [u16],
) {
    let turn = open_board(file);
    say::say_also(rt, code_of(turn.answer));
    let board = say_calls(rt, turn.board, text, rows, predecessors);
    say_engines(rt, board);
}
