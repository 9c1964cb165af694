// Many systems, each planned and held to the brute search: every small system of one type with a drawn d and q, and drawn ones of two to six
// types.
use crate::right::{right_fill, right_list, right_long, right_short};
use brute::recovery;
use system::System;
use trial::spread::DrawnSystem;
use trial::{say, spread, systems};

// How many systems were tried, planned, and answered wrongly.
#[derive(Clone, Copy, Default)]
struct Tally {
    tried: usize,
    planned: usize,
    wrong: usize,
}

impl Tally {
    fn count(&mut self, planned: bool, right: bool) {
        self.tried = self.tried.wrapping_add(1);
        self.planned = self.planned.wrapping_add(usize::from(planned));
        self.wrong = self.wrong.wrapping_add(usize::from(!right));
    }
}

// One system more.
fn try_system(rt: &HostRuntime, tally: &mut Tally, y: System, cells: bool) {
    let want = recovery::recovered(y, recovery::ceilings_of(y));
    let columns = recovery::columns_of(y);
    let right = (!cells || right_fill(y, columns))
        && right_long(y, want, columns, cells)
        && right_short(y, columns, cells)
        && right_list(y, want);
    if !right {
        say::say_system(rt, b"mismatch:", y);
    }
    tally.count(want.is_some(), right);
}

// A line of a spread: the systems tried, planned, refused 12 and answered wrongly.
fn say_tally(rt: &HostRuntime, name: &[u8], t: Tally) {
    let refused = t.tried.wrapping_sub(t.planned);
    say::say_numbers(rt, name, &[t.tried, t.planned, refused, t.wrong]);
}

// The system of one type that a number stands for: rule, m 1 to 3, n 0 to 4, then U, S, u and s 0 to 6; its d and its q are drawn.
fn one_type(code: usize) -> System {
    let rule = (code % 2) as u8;
    let engines = (code / 2) % 3 + 1;
    let ceiling = ((code / 6) % 5) as u16;
    let time = ((code / 30) % 7) as u32;
    let memory = ((code / 210) % 7) as u32;
    let each = ((code / 1470) % 7) as u32;
    let size = ((code / 10290) % 7) as u32;
    let y = systems::platform_of(engines, rule, time, memory);
    let d = DrawnSystem {
        seed: code as u64,
        system: systems::with_type(y, each, size, ceiling),
    };
    spread::with_drawn_most(spread::with_drawn_data(d, false)).system
}

// All of them, with every cell of one in 64.
fn one_types(rt: &HostRuntime) -> Tally {
    let mut tally = Tally::default();
    for code in 0..72030 {
        try_system(rt, &mut tally, one_type(code), code % 64 == 0);
    }
    tally
}

// So many systems drawn one after another, with every cell of one in 16.
fn drawn(
    rt: &HostRuntime,
    first: u64,
    number: usize,
    engines: usize,
    typecount: usize,
    most: usize,
) -> Tally {
    let mut tally = Tally::default();
    let mut seed = first;
    for i in 0..number {
        let drawn = spread::drawn_system(seed, engines, typecount, most);
        try_system(rt, &mut tally, drawn.system, i % 16 == 0);
        seed = drawn.seed;
    }
    tally
}

pub fn say_spreads(rt: &HostRuntime) {
    say::say(rt, b"systems: tried, planned, refused 12, mismatches\n");
    say_tally(rt, b"one type:", one_types(rt));
    say_tally(rt, b"two types:", drawn(rt, 1, 1500, 3, 2, 3));
    say_tally(rt, b"three types:", drawn(rt, 2, 1500, 3, 3, 2));
    say_tally(rt, b"four types:", drawn(rt, 3, 300, 4, 4, 2));
    say_tally(rt, b"six types:", drawn(rt, 4, 500, 3, 6, 1));
}
