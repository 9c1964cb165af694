// Many drawn lists of calls, over dirty tables, the same table again, and tables of which one part is too short, or both: lists of the four calls of
// document 01, and lists of all six, in which engines are withdrawn and put back. How many calls were answered in each way, and a line for each call
// that is answered otherwise than the ledger says.
use crate::live::{Live, Step, played};
use crate::scripts::kind_of;
use crate::shown::shown;
use brute::ledger::{Call, Kind};
use brute::recovery;
use system::{Answer, Refusal, System};
use trial::lent::Lengths;
use trial::spread::{DrawnSystem, Draws};
use trial::words::byte_of;
use trial::{files, say, spread, systems, tables};

// A call drawn, how many entries of each part it is lent, and whether they are made dirty before, or stay as they are.
#[derive(Clone, Copy)]
struct DrawnCall {
    call: Call,
    lent: Lengths,
    dirty: bool,
}

// The letters of the calls that may be drawn at a turn, each as likely as the others. Of the four kinds: five admits, one seat, three retires and one
// repack. Of all six kinds so many of each, by how far the list has come: engines are withdrawn; put back and filled; instances come and go; engines are
// emptied and withdrawn; at last all kinds are likely.
fn letters_at(turn: usize, six: bool) -> &'static [u8] {
    if !six {
        return b"aaaaasrrrp";
    }
    match turn / 8 {
        0 => b"wwwwwwwwwwbaassp",
        1 => b"bbbaaaaaaaaaaspr",
        2 => b"aaaaaarrrrrrswbp",
        3 => b"wwwwwwrrrraassbp",
        _ => b"aaaaaaasrrrrpwwb",
    }
}

fn lengths(rows: usize, predecessors: usize) -> Lengths {
    Lengths { rows, predecessors }
}

// Parts of which one has an entry too few, or none at all, or both have an entry too few: by turns. A match, as an array of the seven would say no more.
fn short_lengths(turn: usize, columns: usize) -> Lengths {
    let less = columns.wrapping_sub(1);
    match turn % 7 {
        0 => lengths(less, columns),
        1 => lengths(columns, less),
        2 => lengths(less, less),
        3 => lengths(less, 512),
        4 => lengths(512, less),
        5 => lengths(0, 512),
        _ => lengths(512, 0),
    }
}

// Parts of which one is just long enough, or both: by turns.
fn just_lengths(turn: usize, columns: usize) -> Lengths {
    match turn % 3 {
        0 => lengths(columns, columns),
        1 => lengths(columns, 512),
        _ => lengths(512, columns),
    }
}

// Of eight tables one has a part that is too short, one has a part that is just long enough, and the others are longer.
fn drawn_lengths(value: usize, turn: usize, columns: usize) -> Lengths {
    match value {
        0 => short_lengths(turn, columns),
        1 => just_lengths(turn, columns),
        _ => lengths(512, 512),
    }
}

// A number that is mostly 1 to `last`, now and then 0, one past it, or 255.
fn drawn_number(draws: &mut Draws, last: usize) -> usize {
    let way = draws.below(24);
    let inside = draws.below(last);
    match way {
        0 => 0,
        1 => last.wrapping_add(1),
        2 => 255,
        _ => inside.wrapping_add(1),
    }
}

fn drawn_kind(draws: &mut Draws, turn: usize, six: bool) -> Kind {
    let letters = letters_at(turn, six);
    kind_of(byte_of(letters, draws.below(letters.len())))
}

fn drawn_call(draws: &mut Draws, y: System, turn: usize, six: bool) -> DrawnCall {
    let call = Call {
        kind: drawn_kind(draws, turn, six),
        task: drawn_number(draws, y.typecount),
        engine: drawn_number(draws, y.engines),
    };
    let room = draws.below(8);
    DrawnCall {
        call,
        lent: drawn_lengths(room, turn, recovery::columns_of(y)),
        dirty: room < 4,
    }
}

// How many calls of each kind were accepted, at 0 to 5, how many refused with each number, how many showed each case of `shown`, and how
// many were answered wrongly.
#[derive(Clone, Copy)]
struct Tally {
    answers: [usize; 40],
    cases: [usize; 8],
    wrong: usize,
}

// The index that an answer is counted at.
fn place_of(kind: Kind, answer: Answer) -> usize {
    match answer {
        Ok(_) => kind as usize,
        Err(Refusal::Input(n) | Refusal::State(n)) => usize::from(n),
    }
}

// A drawn call is wrong: its system, then its kind, type, engine and answer.
fn say_wrong(rt: &HostRuntime, y: System, c: Call, answer: Answer) {
    say::say_system(rt, b"mismatch:", y);
    say::say_also(rt, c.kind as usize);
    say::say_also(rt, c.task);
    say::say_also(rt, c.engine);
    say::say_also(rt, say::code_of(answer));
    say::say(rt, b"\n");
}

impl Tally {
    fn new() -> Tally {
        Tally {
            answers: [0; 40],
            cases: [0; 8],
            wrong: 0,
        }
    }

    // A call, which was played from this live board.
    fn count(&mut self, before: &Live, c: Call, s: &Step) {
        if let Some(n) = self.answers.get_mut(place_of(c.kind, s.answer)) {
            *n = n.wrapping_add(1);
        }
        if let Some(case) = shown(before.ledger, s.live.ledger, c, s.answer) {
            let n = &mut self.cases[case as usize];
            *n = n.wrapping_add(1);
        }
        if !s.right {
            self.wrong = self.wrong.wrapping_add(1);
        }
    }

    // A list of calls drawn for one system, of four kinds or of six.
    fn play(&mut self, rt: &HostRuntime, draws: &mut Draws, y: System, six: bool, cells: bool) {
        let f = files::file_of(y);
        let mut live = Live::of(f.as_slice());
        for turn in 0..40 {
            let d = drawn_call(draws, y, turn, six);
            if d.dirty {
                live.table = tables::dirty_table();
            }
            let s = played(live, d.call, d.lent, cells);
            if !s.right {
                say_wrong(rt, y, d.call, s.answer);
            }
            self.count(&live, d.call, &s);
            live = s.live;
        }
    }

    // A line: the accepted admits, seats, retires and repacks, the calls refused 11, 13, 14, 21, 22, 23 and 24, and those answered wrongly.
    fn say(&self, rt: &HostRuntime, name: &[u8]) {
        let n = &self.answers;
        let row = [
            n[0], n[1], n[2], n[3], n[11], n[13], n[14], n[21], n[22], n[23], n[24], self.wrong,
        ];
        say::say_numbers(rt, name, &row);
    }

    // A second line of all six calls: the accepted withdraws and restores, the calls refused 35 and 36, and the eight cases of `shown`.
    fn say_marks(&self, rt: &HostRuntime) {
        let n = &self.answers;
        let [a, b, c, d, e, f, g, h] = self.cases;
        let row = [n[4], n[5], n[35], n[36], a, b, c, d, e, f, g, h];
        say::say_numbers(rt, b"    marks:", &row);
    }
}

// Two engines or a few more that a few types fill in few ways, so that a newcomer often finds no engine though there is room: by time, and
// by shared memory.
fn tight_time(engines: usize) -> System {
    let y = systems::platform_of(engines, 0, 10, 100);
    systems::with_type(
        systems::with_type(systems::with_type(y, 6, 1, 2), 4, 1, 2),
        3,
        1,
        2,
    )
}

fn tight_memory(engines: usize) -> System {
    let y = systems::platform_of(engines, 1, 100, 6);
    let two = systems::with_type(systems::with_type(y, 1, 3, 2), 1, 3, 2);
    systems::with_type(systems::with_type(two, 1, 3, 2), 1, 3, 1)
}

// The same by memory with data memory, under either rule.
fn tight_data(engines: usize, rule: u8, memory: u32) -> System {
    let y = systems::platform_of(engines, rule, 100, memory);
    let one = systems::with_data(systems::with_type(y, 1, 4, 2), 4);
    let two = systems::with_data(systems::with_type(one, 1, 1, 2), 2);
    systems::with_data(systems::with_type(two, 1, 4, 2), 3)
}

// The same by limits on one engine, with time and memory: under rule 0, and under rule 1.
fn tight_own(engines: usize) -> System {
    let y = systems::platform_of(engines, 0, 9, 15);
    let one = systems::with_most(systems::with_data(systems::with_type(y, 1, 4, 3), 3), 1);
    let two = systems::with_most(systems::with_data(systems::with_type(one, 0, 4, 2), 3), 2);
    systems::with_most(systems::with_type(two, 0, 0, 1), 2)
}

fn tight_shared(engines: usize) -> System {
    let y = systems::platform_of(engines, 1, 10, 17);
    let one = systems::with_data(systems::with_type(y, 5, 0, 2), 1);
    let two = systems::with_most(systems::with_data(systems::with_type(one, 4, 3, 2), 1), 1);
    systems::with_most(systems::with_data(systems::with_type(two, 1, 2, 3), 3), 1)
}

// The lists of a spread: whether of all six calls, which all else is given for either way; the seed before that of the first line, how many lists each line has
// for drawn systems, for ones that are tight in time or memory, and for those with d or q; and how many engines the tight ones have, and the last one.
#[derive(Clone, Copy)]
struct Spread {
    six: bool,
    seed: u64,
    drawn: usize,
    tight: usize,
    stacked: usize,
    engines: usize,
    last: usize,
}

const FOUR: Spread = Spread {
    six: false,
    seed: 10,
    drawn: 200,
    tight: 100,
    stacked: 50,
    engines: 2,
    last: 2,
};

const SIX: Spread = Spread {
    six: true,
    seed: 20,
    drawn: 400,
    tight: 200,
    stacked: 200,
    engines: 3,
    last: 4,
};

impl Spread {
    // The line at this place of so many lists, each for the system that `next` gives, with every entry of every filled table in one of 50.
    fn say<F: Fn(u64) -> DrawnSystem>(
        &self,
        rt: &HostRuntime,
        name: &[u8],
        place: u64,
        number: usize,
        next: F,
    )
        requires { F.IsAlwaysCallable next }
    {
        let mut t = Tally::new();
        let mut draws = Draws {
            seed: self.seed.wrapping_add(place),
        };
        for i in 0..number {
            let d = next(draws.seed);
            draws.seed = d.seed;
            t.play(rt, &mut draws, d.system, self.six, i % 50 == 0);
        }
        t.say(rt, name);
        if self.six {
            t.say_marks(rt);
        }
    }

    // The lines of systems that are drawn, of so many types.
    fn say_spread(&self, rt: &HostRuntime) {
        let lines = [
            (b"one type:".as_slice(), 1, 5),
            (b"two types:".as_slice(), 2, 3),
            (b"three types:".as_slice(), 3, 2),
        ];
        for (name, k, most) in lines {
            self.say(rt, name, k as u64, self.drawn, |seed| {
                spread::drawn_system(seed, 3, k, most)
            });
        }
    }

    // The lines of systems that are given.
    fn say_tight(&self, rt: &HostRuntime) {
        let m = self.engines;
        let lines = [
            (b"tight time:".as_slice(), 4, self.tight, tight_time(m)),
            (b"tight memory:".as_slice(), 5, self.tight, tight_memory(m)),
            (
                b"tight data, own:".as_slice(),
                6,
                self.stacked,
                tight_data(m, 0, 11),
            ),
            (
                b"tight data, shared:".as_slice(),
                7,
                self.stacked,
                tight_data(m, 1, 13),
            ),
            (b"tight q, own:".as_slice(), 8, self.stacked, tight_own(m)),
            (
                b"tight q, shared:".as_slice(),
                9,
                self.stacked,
                tight_shared(self.last),
            ),
        ];
        for (name, place, number, system) in lines {
            self.say(rt, name, place, number, |seed| DrawnSystem { seed, system });
        }
    }
}

pub fn say_drawn(rt: &HostRuntime) {
    say::say(
        rt,
        b"calls: admitted, seated, retired, repacked, refused 11, 13, 14, 21, 22, 23, 24, mismatches\n",
    );
    FOUR.say_spread(rt);
    FOUR.say_tight(rt);
}

// Lists of all six calls.
pub fn say_drawn_marks(rt: &HostRuntime) {
    say::say(
        rt,
        b"the same with withdraw and restore; in a second line withdrawn, restored, refused 35, 36; with an engine out, admitted past",
    );
    say::say(
        rt,
        b" it, moved past it, refused 23, refused 24 for want of it; with all out, admits and seats refused 24, repacked, restored\n",
    );
    SIX.say_spread(rt);
    SIX.say_tight(rt);
}
