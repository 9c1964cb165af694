// A line for each case: a name, the letter of a file or a board, its bytes, the newcomer's type, and how many entries of each part are lent.
use crate::boards::board_in;
use crate::calls;
use crate::calls::{Left, Told};
use board::Board;
use board_code::{admit, seat};
use causes::Cause;
use causes_code::cause_number;
use planner_code::plan_of;
use trial::cases::Words;
use trial::lent::Lengths;
use trial::say::{code_of, say, say_also};

// The request's number of a cause, by the name of its case: written here again, apart from the code under test.
fn named_number(c: Cause) -> u8 {
    match c {
        Cause::Possible => 0,
        Cause::NoEngine => 1,
        Cause::OneTooLarge(_) => 2,
        Cause::TooMuchTime => 3,
        Cause::TooMuchMemory => 4,
        Cause::TooManyReplicas => 5,
        Cause::NoArrangement => 6,
    }
}

// The number of a cause, which `cause_number` must say too; 9 where it says another. And the type that it names.
fn say_cause(rt: &HostRuntime, c: Cause) {
    let number = named_number(c);
    say(rt, b" cause");
    say_also(
        rt,
        if cause_number(c) == number {
            usize::from(number)
        } else {
            9
        },
    );
    if let Cause::OneTooLarge(t) = c {
        say(rt, b" type");
        say_also(rt, t);
    }
}

// What a call told, and what it left in the table.
fn say_told(rt: &HostRuntime, told: Told) {
    match told.answer {
        Ok(c) => say_cause(rt, c),
        Err(why) => {
            say(rt, b" refused");
            say_also(rt, code_of(Err(why)));
        }
    }
    match told.left {
        Left::AsLent => say(rt, b" lent"),
        Left::Front(number) => say_also(rt, number),
        Left::ChangedPast => say(rt, b" CHANGED PAST"),
    }
    say(rt, b" |");
}

fn say_file(rt: &HostRuntime, file: &[u8], lent: Lengths) {
    say_told(rt, calls::plan_told(file, lent));
    let plan = calls::answered(lent, |rows, predecessors| {
        plan_of(file, rows, predecessors).answer
    });
    say_also(rt, code_of(plan));
}

fn say_board(rt: &HostRuntime, b: Board, newcomer: usize, lent: Lengths) {
    say_told(rt, calls::room_told(b, newcomer, lent));
    let admitted = calls::answered(lent, |rows, predecessors| {
        admit(b, newcomer, rows, predecessors).answer
    });
    let seated = calls::answered(lent, |rows, predecessors| {
        seat(b, newcomer, rows, predecessors).answer
    });
    say_also(rt, code_of(admitted));
    say_also(rt, code_of(seated));
}

pub fn say_case(rt: &HostRuntime, line: &[u8]) {
    let mut words = Words::of(line);
    say(rt, words.word());
    say(rt, b":");
    let on_board = words.letter() == b'b';
    let given = words.bytes();
    let newcomer = words.number();
    let lent = Lengths {
        rows: words.number(),
        predecessors: words.number(),
    };
    if on_board {
        say_board(rt, board_in(given.as_slice()), newcomer, lent);
    } else {
        say_file(rt, given.as_slice(), lent);
    }
    say(rt, b"\n");
}
