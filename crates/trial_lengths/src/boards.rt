// The calls of a board that are lent a table: what each answers, and the engines after it.
use board::{Board, Turn};
use board_code::{admit, open_board, retire};
use trial::say;

// The fresh board of a file, with what opening it answers.
pub fn say_opened(rt: &HostRuntime, file: &[u8]) -> Board {
    let opened = open_board(file);
    say::say(rt, b" open");
    say::say_answer(rt, opened.answer);
    say::say(rt, b",");
    opened.board
}

// A call on the fresh board of a file: what it answers, and the loads of the engines after it.
pub fn say_call<F: FnOnce(Board) -> Turn>(rt: &HostRuntime, file: &[u8], call: F)
    requires { F.IsAlwaysCallable call }
{
    let turn = call(say_opened(rt, file));
    let b = turn.board;
    say::say_answer(rt, turn.answer);
    for load in b.loads.iter().take(b.system.engines) {
        say::say_load(rt, *load, b.system.typecount);
    }
    say::say(rt, b"\n");
}

// The board with one more of a type, admitted over a table that is long enough for few columns.
fn with_one(b: Board) -> Board {
    admit(b, 1, &mut [0; 16], &mut [0; 16]).board
}

// Two of type 1 on two engines: of three that were admitted, of which an engine takes two, the first has left.
pub fn spread(b: Board) -> Board {
    retire(with_one(with_one(with_one(b))), 1, 1).board
}
