// Lists of calls that are given, with their answers: scripts of six bytes for each call. Its kind (a, s, r for retire, p for repack, w for
// withdraw, b for restore, which puts an engine back), type and engine, then `@` and the engine that admit answers (0 for another call), or
// the refusal's number; a space, or a full stop after the last. `-` is no number, `x` is 255.
use crate::live::{Live, played};
use board::Board;
use brute::ledger::{Call, Kind};
use system::{Answer, Refusal};
use trial::lent::Lengths;
use trial::say;
use trial::words::byte_of;

fn figure(b: u8) -> u8 {
    if b == b'x' {
        255
    } else {
        b.saturating_sub(b'0')
    }
}

// The kind of call that a letter stands for.
pub fn kind_of(b: u8) -> Kind {
    match b {
        b'a' => Kind::Admit,
        b's' => Kind::Seat,
        b'r' => Kind::Retire,
        b'p' => Kind::Repack,
        b'w' => Kind::Withdraw,
        _ => Kind::Restore,
    }
}

fn scripted(script: &[u8]) -> Call {
    Call {
        kind: kind_of(byte_of(script, 0)),
        task: usize::from(figure(byte_of(script, 1))),
        engine: usize::from(figure(byte_of(script, 2))),
    }
}

// The answer that a script gives: refusals below 20 come from the input, the others of these calls from the state.
fn scripted_answer(script: &[u8]) -> Answer {
    let second = figure(byte_of(script, 4));
    match byte_of(script, 3) {
        b'@' if second == 0 => Ok(None),
        b'@' => Ok(Some(usize::from(second))),
        b'1' => Err(Refusal::Input(second.wrapping_add(10))),
        b'2' => Err(Refusal::State(second.wrapping_add(20))),
        _ => Err(Refusal::State(second.wrapping_add(30))),
    }
}

// The engines of a board, and a word for each that is out of service.
fn say_board(rt: &HostRuntime, b: Board) {
    let engines = b.loads.iter().zip(&b.marks).take(b.system.engines);
    for (load, out) in engines {
        say::say_load(rt, *load, b.system.typecount);
        if *out {
            say::say(rt, b" out");
        }
    }
    say::say(rt, b"\n");
}

// The rest of the line of a list of calls that is given, past its name: how many calls, how many of them wrong by the script or the ledger, and the final
// board. With `cells` every entry of a filled table is compared too.
pub fn say_list(rt: &HostRuntime, file: &[u8], script: &[u8], cells: bool) {
    let whole = Lengths {
        rows: 512,
        predecessors: 512,
    };
    let mut live = Live::of(file);
    let mut wrong: usize = 0;
    for call in script.chunks(6) {
        let s = played(live, scripted(call), whole, cells);
        if (s.answer != scripted_answer(call)) | !s.right {
            wrong = wrong.wrapping_add(1);
        }
        live = s.live;
    }
    say::say_also(rt, script.len() / 6);
    say::say(rt, b" calls, wrong");
    say::say_also(rt, wrong);
    say_board(rt, live.board);
}
