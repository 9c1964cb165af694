// The boards of the trial, made by the words of a case one after the other from one whose numbers are all 0. A word that changes its system is one of crate
// `trial`'s, and its letter chooses as there, by the byte that `Change` holds. The others:
// - `A`: document 01's system A with two engines, on which nothing stands; `H`: the same with (2, 0) and (1, 2) on them;
// - `D`: two engines of U 10 and S 20, rule 1, types of u 2, s 5, n 4, d 3 and of u 1, s 2, n 2, d 1; (2, 1) on engine 1 and (1, 0) on engine 2. The
//   memory of engine 1 is 14, and would be 19 under rule 0;
// - `O`: what opening a file that is refused hands out;
// - `e=`: the words after it are of this engine: `T=` and `M=`, the stored time and memory; `c1=`, the count of type 1; `out`, a mark on it;
// - `all`: a mark on each of the sixteen.
use board::Board;
use board_code::open_board;
use brute::recovery;
use loads::EngineLoad;
use system::{ENGINE_LIMIT, System};
use system_code::blank_system;
use trial::changes::{Change, change_of, changed};
use trial::systems;

// A board, and the index of the engine that words are of.
#[derive(Clone, Copy)]
pub struct Made {
    pub board: Board,
    engine: usize,
}

// A board on which nothing stands.
fn empty(system: System) -> Board {
    Board {
        system,
        loads: [recovery::idle(); ENGINE_LIMIT],
        marks: [false; ENGINE_LIMIT],
    }
}

fn load(time: u32, memory: u32, first: u16, second: u16) -> EngineLoad {
    EngineLoad {
        time,
        memory,
        counts: [first, second, 0, 0, 0, 0],
    }
}

// A board with these loads on engines 1 and 2.
fn with_two(y: System, one: EngineLoad, two: EngineLoad) -> Board {
    let mut b = empty(y);
    b.loads[0] = one;
    b.loads[1] = two;
    b
}

fn stacked() -> System {
    let one = systems::with_type(systems::platform_of(2, 1, 10, 20), 2, 5, 4);
    systems::with_data(systems::with_type(systems::with_data(one, 3), 1, 2, 2), 1)
}

// A load with another number.
fn change_load(load: &mut EngineLoad, c: Change) {
    match c.what {
        b'T' => load.time = (c.number % 4294967296) as u32,
        b'M' => load.memory = (c.number % 4294967296) as u32,
        _ => {
            if let Some(count) = load.counts.get_mut(c.index) {
                *count = (c.number % 65536) as u16;
            }
        }
    }
}

impl Made {
    // What no word has changed yet.
    pub fn blank() -> Made {
        Made {
            board: empty(blank_system()),
            engine: 0,
        }
    }

    // A load or a mark of the engine that words are of, where there is such an engine.
    fn tell_engine(&mut self, c: Change) {
        if c.what != b'o' {
            if let Some(load) = self.board.loads.get_mut(self.engine) {
                change_load(load, c);
            }
        } else if let Some(mark) = self.board.marks.get_mut(self.engine) {
            *mark = true;
        }
    }

    // What a word changes.
    pub fn tell(&mut self, word: &[u8]) {
        let c = change_of(word);
        match c.what {
            b'A' => self.board = empty(systems::system_a(2)),
            b'H' => {
                self.board = with_two(systems::system_a(2), load(8, 6, 2, 0), load(10, 7, 1, 2));
            }
            b'D' => self.board = with_two(stacked(), load(5, 14, 2, 1), load(2, 8, 1, 0)),
            b'O' => self.board = open_board(b"\x01").board,
            b'e' => self.engine = c.number.wrapping_sub(1),
            b'T' | b'M' | b'c' | b'o' => self.tell_engine(c),
            b'a' => self.board.marks = [true; ENGINE_LIMIT],
            _ => self.board.system = changed(self.board.system, c),
        }
    }
}
