// Many calls, each judged, and counted by what it answered.
use crate::drawn::{Drawn, drawn_both, drawn_edges, drawn_kinds, drawn_paces};
use crate::{lent, rounds};
use system::{Answer, Refusal, System};
use trial::buffers::BUFFER_BYTES;
use trial::lent::front;
use trial::{say, spread};

// How many calls wrote the system, at 0, and how many were refused with each number, in the order in which they are asked; and how many were wrong.
#[derive(Clone, Copy)]
struct Tally {
    answers: [usize; 12],
    wrong: usize,
}

// Where an answer is counted: 41 and 43 last, and 9 for one that the writer never gives.
fn place_of(a: Answer) -> usize {
    match a {
        Ok(Some(_)) => 0,
        Err(Refusal::Input(7)) => 1,
        Err(Refusal::Input(9)) => 2,
        Err(Refusal::Input(5)) => 3,
        Err(Refusal::Input(6)) => 4,
        Err(Refusal::Input(8)) => 5,
        Err(Refusal::Input(31)) => 6,
        Err(Refusal::Input(10)) => 7,
        Err(Refusal::Input(30)) => 8,
        Err(Refusal::Input(41)) => 10,
        Err(Refusal::Input(43)) => 11,
        _ => 9,
    }
}

impl Tally {
    fn new() -> Tally {
        Tally {
            answers: [0; 12],
            wrong: 0,
        }
    }

    // One call, with its round trips.
    fn judge(&mut self, rt: &HostRuntime, y: System, room: usize) {
        let c = lent::called(y, room, 61);
        if let Some(n) = self.answers.get_mut(place_of(c.answer)) {
            *n = n.wrapping_add(1);
        }
        if !rounds::right(y, room) {
            say::say_count(rt, b"mismatch: buffer", room);
            say::say_count(rt, b"types", y.typecount);
            say::say_system(rt, b"system", y);
            self.wrong = self.wrong.wrapping_add(1);
        }
    }

    // A line for the calls, with the first numbers of the answers; answers how many of them were wrong.
    fn say(&self, rt: &HostRuntime, name: &[u8], shown: usize) -> usize {
        say::say_numbers(rt, name, front(&self.answers, shown));
        self.wrong
    }
}

// Buffers of every length from 0 on, fewer than `end`, with a line for them: the longest file of one kind of engine without a C and T has 163 bytes, of two
// 241, and with them 229 and 307.
pub fn say_lengths(rt: &HostRuntime, name: &[u8], y: System, end: usize, shown: usize) -> usize {
    let mut t = Tally::new();
    for room in 0..end {
        t.judge(rt, y, room);
    }
    t.say(rt, name, shown)
}

// So many systems, each drawn with the seed that the one before it left, and its number in turn from 0.
fn sweep<F: Fn(u64, usize) -> Drawn>(rt: &HostRuntime, seed: u64, number: usize, next: F) -> Tally
    requires { F.IsAlwaysCallable next }
{
    let mut t = Tally::new();
    let mut seed = seed;
    for i in 0..number {
        let d = next(seed, i);
        t.judge(rt, d.system, d.room);
        seed = d.draws.seed;
    }
    t
}

// The types of the system at a place, 1 to 6 in turn, and their largest n, so that the columns of most systems are within their limit.
fn in_turn(i: usize) -> (usize, usize) {
    match i % 6 {
        0 => (1, 4120),
        1 => (2, 67),
        2 => (3, 18),
        3 => (4, 9),
        4 => (5, 6),
        _ => (6, 4),
    }
}

// The system at a place, drawn by crate `trial`, of up to 16 engines, with all of a buffer.
fn drawn_in_turn<F: Fn(u64, usize, usize, usize) -> spread::DrawnSystem>(
    seed: u64,
    i: usize,
    draw: F,
) -> Drawn
    requires { F.IsAlwaysCallable draw }
{
    let (k, most) = in_turn(i);
    let d = draw(seed, 16, k, most);
    Drawn {
        draws: spread::Draws { seed: d.seed },
        system: d.system,
        room: BUFFER_BYTES,
    }
}

// The drawn systems, and how many calls were wrong, among them and before them. Of two kinds the number of those refused 41 is shown too, and with a C and T
// the number of those refused 43.
pub fn say_sweeps(rt: &HostRuntime, before: usize) {
    let wrong = [
        sweep(rt, 1, 20000, |seed, _| drawn_edges(seed)).say(rt, b"ends of the limits:", 10),
        sweep(
            rt,
            2,
            6000,
            |seed, i| drawn_in_turn(seed, i, spread::drawn_system),
        )
        .say(rt, b"drawn:", 10),
        sweep(rt, 3, 10000, |seed, _| drawn_kinds(seed)).say(
            rt,
            b"ends of the limits, two kinds:",
            11,
        ),
        sweep(
            rt,
            4,
            3000,
            |seed, i| drawn_in_turn(seed, i, spread::drawn_mixed),
        )
        .say(rt, b"drawn, two kinds:", 11),
        sweep(rt, 5, 10000, |seed, _| drawn_paces(seed)).say(
            rt,
            b"ends of the limits, C and T:",
            12,
        ),
        sweep(rt, 6, 10000, |seed, _| drawn_both(seed)).say(
            rt,
            b"ends of the limits, two kinds, C and T:",
            12,
        ),
    ];
    let all = wrong.iter().fold(before, |all, n| all.wrapping_add(*n));
    say::say_count(rt, b"mismatches", all);
}
