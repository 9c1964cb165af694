// Example: a live board, from opening it to reading what its engines hold. A program of your own can begin as a copy of this one.
// It is proved like everything here, and needs no proof file: no call on a board has a `requires`, and there is no loop.
#![tactic(auto)]

use board::{Board, Turn};
use board_code::{admit, open_board, restore, retire, seat, withdraw};
use loads::EngineLoad;
use system::Refusal;
use table_code::{columns_needed, fill_table};

// Opens a board, makes its calls, and says what each answered. Each call takes the board that the call before it handed back, also where
// that call was refused. A line that cannot be written is left out, and the next one is tried: what is said changes nothing on the board.
fn main(rt: HostRuntime) {
    // A system file: the platform (m 2, rule 0, U 10, S 8), type 1 (u 4, s 3, n 3), type 2 (u 3, s 2, n 2).
    let file =
        b"\x01\x00\x0a\x02\x00\x00\x00\x00\x0a\x00\x00\x00\x08\x02\x00\x0a\x00\x00\x00\x04\x00\x00\x00\x03\x00\x03\x02\x00\x0a\x00\x00\x00\x03\x00\x00\x00\x02\x00\x02";
    let opened = open_board(file);
    let b = told(&rt, "open", opened);
    if opened.answer.is_err() {
        return;
    }
    // Admit and seat work in a lent table of two parts, of (3 + 1) × (2 + 1) entries or more each. 4,096 are enough for every system.
    if let Ok(Some(columns)) = columns_needed(file) {
        let _ = println!(rt; "table: columns needed {columns}");
    }
    let mut rows = [0u16; 12];
    let mut predecessors = [0u16; 12];
    // What a fill costs is told by the pairs that it tries: at most 2 × (4 × 5 / 2) × (3 × 4 / 2) here.
    if let Ok(Some(pairs)) = fill_table(file, &mut rows, &mut predecessors) {
        let _ = println!(rt; "table: pairs tried {pairs}");
    }
    let b = with_newcomers(&rt, b, &mut rows, &mut predecessors);
    say_board(&rt, b);
    let b = with_failure(&rt, b);
    say_board(&rt, b);
}

// Newcomers are admitted as long as there is room, some instances leave, and others come.
fn with_newcomers(rt: &HostRuntime, b: Board, rows: &mut [u16], predecessors: &mut [u16]) -> Board {
    let b = told(rt, "admit 1", admit(b, 1, rows, predecessors));
    let b = told(rt, "admit 1", admit(b, 1, rows, predecessors));
    let b = told(rt, "admit 1", admit(b, 1, rows, predecessors));
    let b = told(rt, "admit 2", admit(b, 2, rows, predecessors));
    let b = told(rt, "admit 2", admit(b, 2, rows, predecessors));
    let b = told(rt, "retire 1 from engine 1", retire(b, 1, 1));
    let b = told(rt, "retire 2 from engine 2", retire(b, 2, 2));
    let b = told(rt, "admit 2", admit(b, 2, rows, predecessors));
    // No engine takes this one as things stand, but after moving others there is room: refused 23. So the operator seats it.
    let b = told(rt, "admit 1", admit(b, 1, rows, predecessors));
    told(rt, "seat 1", seat(b, 1, rows, predecessors))
}

// Engine 2 fails: its instances move to engine 1 as far as there is room, and the engine is put back when it is mended. The table is another
// one than before, which changes no answer.
fn with_failure(rt: &HostRuntime, b: Board) -> Board {
    let mut rows = [0u16; 12];
    let mut predecessors = [0u16; 12];
    // One of type 1 is no longer wanted, which leaves room on engine 1.
    let b = told(rt, "retire 1 from engine 1", retire(b, 1, 1));
    // An engine that still holds an instance is not withdrawn: refused 35.
    let b = told(rt, "withdraw engine 2", withdraw(b, 2));
    let b = told(rt, "retire 1 from engine 2", retire(b, 1, 2));
    let b = told(rt, "retire 2 from engine 2", retire(b, 2, 2));
    let b = told(rt, "retire 2 from engine 2", retire(b, 2, 2));
    // An engine that holds nothing goes out of service: no call puts an instance on it until it is restored.
    let b = told(rt, "withdraw engine 2", withdraw(b, 2));
    let b = told(rt, "admit 2", admit(b, 2, &mut rows, &mut predecessors));
    let b = told(rt, "admit 2", admit(b, 2, &mut rows, &mut predecessors));
    // Engine 1 is full, and engine 2 out of service: no room, refused 24, until it is back.
    let b = told(rt, "admit 1", admit(b, 1, &mut rows, &mut predecessors));
    let b = told(rt, "restore engine 2", restore(b, 2));
    told(rt, "admit 1", admit(b, 1, &mut rows, &mut predecessors))
}

// Says what a call answered, and hands on the board. An admit that is accepted answers with its engine's number; a refusal comes from the input (1 to 15) or
// from the state of the board (20 to 24, 35 and 36).
fn told(rt: &HostRuntime, call: &str, turn: Turn) -> Board {
    let _ = match turn.answer {
        Ok(None) => println!(rt; "{call}: accepted"),
        Ok(Some(e)) => println!(rt; "{call}: accepted on engine {e}"),
        Err(Refusal::Input(n) | Refusal::State(n)) => println!(rt; "{call}: refused {n}"),
    };
    turn.board
}

// What the two engines hold, in the words of a listing. Engine e is at index e - 1.
fn say_board(rt: &HostRuntime, b: Board) {
    say_engine(rt, 1, b.loads[0]);
    say_engine(rt, 2, b.loads[1]);
}

// An engine's number, time, memory, and how many of each of the two types it holds.
fn say_engine(rt: &HostRuntime, e: usize, load: EngineLoad) {
    let [one, two, ..] = load.counts;
    let _ = println!(rt;
        "engine {e} util {} mem {} types {one} {two}",
        load.time, load.memory
    );
}
