// Many drawn systems of one to six types, with d and q, under both rules, and what their fills came to.
use crate::fills;
use system::System;
use trial::{say, spread, systems};

// How many systems were tried; in how many every answer was right, no type fits, the pairs are the bound but for column 0, and they are one for each
// other column; and the sums of pairs and bounds.
#[derive(Clone, Copy, Default)]
struct Tally {
    tried: usize,
    right: usize,
    none: usize,
    met: usize,
    least: usize,
    pairs: usize,
    bound: usize,
}

impl Tally {
    // The fills of one system, over parts that another one left.
    fn judge(&mut self, rt: &HostRuntime, y: System, other: System) {
        let r = fills::trial_of(y, other);
        if !r.right {
            say::say_system(rt, b"mismatch:", y);
        }
        self.tried = self.tried.wrapping_add(1);
        self.right = self.right.wrapping_add(usize::from(r.right));
        self.none = self.none.wrapping_add(usize::from(r.none));
        self.met = self.met.wrapping_add(usize::from(r.met));
        self.least = self.least.wrapping_add(usize::from(r.least));
        self.pairs = self.pairs.wrapping_add(r.pairs);
        self.bound = self.bound.wrapping_add(r.bound);
    }
}

// A line for so many systems of up to 16 engines, drawn one after another.
fn say_drawn(rt: &HostRuntime, name: &[u8], number: usize, typecount: usize, most: usize) {
    let mut t = Tally::default();
    let mut seed = typecount as u64;
    let mut other = systems::system_a(3);
    for _ in 0..number {
        let d = spread::drawn_system(seed, 16, typecount, most);
        t.judge(rt, d.system, other);
        other = d.system;
        seed = d.seed;
    }
    let row = [t.tried, t.right, t.none, t.met, t.least, t.pairs, t.bound];
    say::say_numbers(rt, name, &row);
}

pub fn say_spreads(rt: &HostRuntime) {
    say::say(
        rt,
        b"systems: tried, right, no type fits, at the bound but for column 0, one for a column, pairs, bound\n",
    );
    say_drawn(rt, b"one type:", 400, 1, 63);
    say_drawn(rt, b"two types:", 400, 2, 12);
    say_drawn(rt, b"three types:", 400, 3, 5);
    say_drawn(rt, b"four types:", 400, 4, 3);
    say_drawn(rt, b"five types:", 300, 5, 2);
    say_drawn(rt, b"six types:", 300, 6, 2);
}
