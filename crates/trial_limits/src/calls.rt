// The calls of a script, four bytes each: its kind (a for admit, m for 1,023 admits, n for 4,095 of them, s for seat, r for retire, p for repack, w for
// withdraw, any
// other for restore), its type, and the engine that it leaves, withdraws or puts back or that is shown after it, then a space. Each answer,
// what the engine holds after it and whether it is out of service, and the table at the end. Rows and predecessors go along as two slices, as the calls under
// test take them.
use crate::as_promised::{admit, open_board, repack, restore, retire, seat, withdraw};
use crate::lent::{OLD, say_table};
use board::{Board, Turn};
use system::TYPE_LIMIT;
use trial::lent::Lengths;
use trial::say;

// What a call of a script does.
#[derive(Clone, Copy)]
enum Kind {
    Admit,
    AdmitOften,
    AdmitMost,
    Seat,
    Retire,
    Repack,
    Withdraw,
    Restore,
}

impl From<u8> for Kind {
    fn from(letter: u8) -> Kind {
        match letter {
            b'a' => Kind::Admit,
            b'm' => Kind::AdmitOften,
            b'n' => Kind::AdmitMost,
            b's' => Kind::Seat,
            b'r' => Kind::Retire,
            b'p' => Kind::Repack,
            b'w' => Kind::Withdraw,
            _ => Kind::Restore,
        }
    }
}

// One of a type and so many more, admitted one after the other: what the last of them answers.
fn admit_all(b: Board, t: usize, more: u16, rows: &mut [u16], predecessors: &mut [u16]) -> Turn {
    let mut turn = admit(b, t, rows, predecessors);
    for _ in 0..more {
        turn = admit(turn.board, t, rows, predecessors);
    }
    turn
}

impl Kind {
    fn name(self) -> &'static [u8] {
        match self {
            Kind::Admit => b"admit",
            Kind::AdmitOften => b"admit often",
            Kind::AdmitMost => b"admit most",
            Kind::Seat => b"seat",
            Kind::Retire => b"retire",
            Kind::Repack => b"repack",
            Kind::Withdraw => b"withdraw",
            Kind::Restore => b"restore",
        }
    }

    // The call, with a type and an engine.
    fn made(
        self,
        b: Board,
        t: usize,
        e: usize,
        rows: &mut [u16],
        predecessors: &mut [u16],
    ) -> Turn {
        match self {
            Kind::Admit => admit(b, t, rows, predecessors),
            Kind::AdmitOften => admit_all(b, t, 1022, rows, predecessors),
            Kind::AdmitMost => admit_all(b, t, 4094, rows, predecessors),
            Kind::Seat => seat(b, t, rows, predecessors),
            Kind::Retire => retire(b, t, e),
            Kind::Repack => repack(b, rows, predecessors),
            Kind::Withdraw => withdraw(b, e),
            Kind::Restore => restore(b, e),
        }
    }
}

// The number at a place of a call's bytes: `0` is 0, and so on to `@`, which is 16, and `A`, 17; `z` is the largest there is. As that of
// trial_parts but for the letter past all others.
fn number_at(bytes: &[u8], i: usize) -> usize {
    match bytes.get(i) {
        None => 0,
        Some(b'z') => usize::MAX,
        Some(byte) => usize::from(byte.saturating_sub(b'0')),
    }
}

// What an engine of a board holds, and whether it is out of service; nothing where there is no such engine.
fn say_engine(rt: &HostRuntime, b: Board, e: usize) {
    let at = e.wrapping_sub(1);
    if let Some(load) = b.loads.get(at) {
        say::say_load(rt, *load, TYPE_LIMIT);
    }
    if b.marks.get(at) == Some(&true) {
        say::say(rt, b" out");
    }
}

// The call of a script: its kind, its type, and the engine that it leaves or that is shown after it. The board after it.
fn say_call(
    rt: &HostRuntime,
    b: Board,
    call: &[u8],
    rows: &mut [u16],
    predecessors: &mut [u16],
) -> Board {
    let kind = Kind::from(call.first().copied().unwrap_or(0));
    let t = number_at(call, 1);
    let e = number_at(call, 2);
    let turn = kind.made(b, t, e, rows, predecessors);
    say::say(rt, kind.name());
    say::say_also(rt, t);
    say::say_also(rt, e);
    say::say_answer(rt, turn.answer);
    say_engine(rt, turn.board, e);
    say::say(rt, b"\n");
    turn.board
}

// The calls of a script of at most 64, four bytes each, of which the last is a space, or the end.
fn say_calls(
    rt: &HostRuntime,
    b: Board,
    script: &[u8],
    rows: &mut [u16],
    predecessors: &mut [u16],
) {
    let mut board = b;
    for call in script.chunks(4).take(64) {
        board = say_call(rt, board, call, rows, predecessors);
    }
}

// A list of calls from the fresh board of a file, over the first entries of two parts, which each call is lent as the one before it left them.
pub fn say_script(rt: &HostRuntime, file: &[u8], lent: Lengths, script: &[u8]) {
    let turn = open_board(file);
    say::say(rt, b"open, lent");
    say::say_also(rt, lent.rows);
    say::say_also(rt, lent.predecessors);
    say::say_answer(rt, turn.answer);
    say::say(rt, b"\n");
    let mut parts = OLD;
    parts.lent(lent, |rows, predecessors| {
        say_calls(rt, turn.board, script, rows, predecessors)
    });
    say_table(rt, &parts, file);
}
