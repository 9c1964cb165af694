// A small generator of numbers, the same at every run, and systems drawn with it: a linear congruential step on 31 bits.
ghost use Rattle.std.specs.Prelude.{◌≡◌, ◌+◌, ◌*◌, ◌/◌, ◌%◌, if◌then◌else◌, nat_eq};

use crate::systems;
use system::{Costs, Cycle, System, TYPE_LIMIT};

// Numbers drawn one after the other, and the seed that the next one comes from.
#[derive(Clone, Copy)]
pub struct Draws {
    pub seed: u64,
}

impl Draws {
    // A number below `limit`, from the upper bits of the seed after this one; 0 where the limit is 0.
    pub fn below(&mut self, limit: usize) -> usize
        ensures seed { self.new.seed ≡ (self.old.seed % 2147483648 * 1103515245 + 12345) % 2147483648 }
        ensures value { result ≡ if nat_eq limit 0 then 0 else self.new.seed / 65536 % limit }
    {
        self.seed = ((self.seed % 2147483648) * 1103515245 + 12345) % 2147483648;
        ((self.seed / 65536) as usize)
            .checked_rem(limit)
            .unwrap_or(0)
    }
}

// A number drawn, and the seed that the next one comes from.
#[derive(Clone, Copy)]
pub struct Drawn {
    pub seed: u64,
    pub value: usize,
}

// The first number below `limit` from a seed.
pub fn draw(seed: u64, limit: usize) -> Drawn {
    let mut draws = Draws { seed };
    let value = draws.below(limit);
    Drawn {
        seed: draws.seed,
        value,
    }
}

// A number of at most 16 steps: of 1, or of 62,500, so that the largest is document 01's limit.
fn scaled(value: usize, large: bool) -> u32 {
    let steps = (value % 17) as u32;
    if large { steps * 62500 } else { steps }
}

// The q of a type of ceiling n, drawn below 8: none in three of the draws, 1 in two, 2, one more than n, or the largest there is.
fn drawn_limit(value: usize, ceiling: u16) -> Option<u16> {
    match value {
        0..=2 => None,
        3 | 4 => Some(1),
        5 => Some(2),
        6 => Some(ceiling % 65535 + 1),
        _ => Some(65535),
    }
}

// A system drawn, and the seed after it.
#[derive(Clone, Copy)]
pub struct DrawnSystem {
    pub seed: u64,
    pub system: System,
}

impl DrawnSystem {
    fn below(&mut self, limit: usize) -> usize {
        let drawn = draw(self.seed, limit);
        self.seed = drawn.seed;
        drawn.value
    }
}

// The platform: 1 to `engines` engines, either rule, capacities of at most 16 steps.
fn drawn_platform(seed: u64, engines: usize, large: bool) -> DrawnSystem {
    let mut draws = Draws { seed };
    let engines = draws.below(engines).wrapping_add(1);
    let rule = (draws.below(2) % 2) as u8;
    let time = scaled(draws.below(17), large);
    let memory = scaled(draws.below(17), large);
    DrawnSystem {
        seed: draws.seed,
        system: systems::platform_of(engines, rule, time, memory),
    }
}

// The system with a d drawn for its last type: none in half of the draws, else of one to four steps.
pub fn with_drawn_data(mut d: DrawnSystem, large: bool) -> DrawnSystem {
    let steps = d.below(8).saturating_sub(3);
    d.system = systems::with_data(d.system, scaled(steps, large));
    d
}

// The system with a q drawn for its last type, where it has one to six.
pub fn with_drawn_most(mut d: DrawnSystem) -> DrawnSystem {
    let value = d.below(8);
    d.system = systems::with_task(d.system, systems::last_of(d.system), |task| {
        task.most = drawn_limit(value, task.ceiling);
    });
    d
}

// The largest C that 43 lets through, of a type with this u on engines with this U: T × u / U, and at most T; 0 for none.
fn largest_run(timecap: u32, time: u32, period: u32) -> u32 {
    match systems::product(period, time).checked_div(u64::from(timecap)) {
        None => 0,
        Some(share) if share < u64::from(period) => (share % 65536) as u32,
        Some(_) => period,
    }
}

// The T of a pace, from two numbers drawn: 1, the largest there is, one of up to 16, or one of up to 32,768.
fn drawn_period(choice: usize, value: usize) -> u32 {
    match choice {
        4 => 1,
        5 => 65535,
        6 => (value % 16 + 1) as u32,
        _ => (value % 32768 + 1) as u32,
    }
}

// The pace of a type with this u on engines with this U, from a seed of its own: none in half of the draws, and where no C is small enough; else
// the largest C for its T, or any up to that.
fn drawn_pace(seed: u64, timecap: u32, time: u32) -> Option<Cycle> {
    let mut draws = Draws { seed };
    let choice = draws.below(8);
    let period = drawn_period(choice, draws.below(32768));
    let most = largest_run(timecap, time, period);
    if (choice < 4) | (most == 0) {
        return None;
    }
    let side = draws.below(2);
    let less = draws.below(most as usize);
    let run = if side == 1 {
        (less % 65536 + 1) as u32
    } else {
        most
    };
    Some(Cycle { run, period })
}

// The system with a C and T drawn for its last type, where it has one to six. All else is drawn as it is without them: they come from another seed, and leave
// this one.
fn with_drawn_pace(mut d: DrawnSystem) -> DrawnSystem {
    let y = d.system;
    let pace = drawn_pace(d.seed % 2147483648 + 1, y.timecap, systems::last_time(y));
    d.system = systems::with_pace_at(y, systems::last_of(y), pace);
    d
}

// The system with one type more, of at most `most` instances that cost up to eight steps, and up to four of data memory; with a q or without, and with a C
// and T or without.
fn with_drawn_type(mut d: DrawnSystem, most: usize, large: bool) -> DrawnSystem {
    let time = scaled(d.below(9), large);
    let memory = scaled(d.below(9), large);
    let ceiling = (d.below(most.wrapping_add(1)) % 65536) as u16;
    d.system = systems::with_type(d.system, time, memory, ceiling);
    with_drawn_pace(with_drawn_most(with_drawn_data(d, large)))
}

// A system of up to `engines` engines and this many types of at most `most` instances each.
pub fn drawn_system(seed: u64, engines: usize, typecount: usize, most: usize) -> DrawnSystem {
    let mut draws = Draws { seed };
    let large = draws.below(2) == 1;
    let mut d = drawn_platform(draws.seed, engines, large);
    for _ in 0..typecount.min(TYPE_LIMIT) {
        d = with_drawn_type(d, most, large);
    }
    d
}

// The system with a second kind of engine, of as many as bring both kinds to at most `engines` in all, and capacities of at most 16 steps.
fn with_drawn_second(mut d: DrawnSystem, engines: usize, large: bool) -> DrawnSystem {
    let y = d.system;
    let number = d.below(engines.wrapping_sub(y.engines));
    let time = scaled(d.below(17), large);
    let memory = scaled(d.below(17), large);
    d.system = systems::with_second(y, number.wrapping_add(1), time, memory);
    d
}

// The system with costs of up to eight steps drawn on the second kind for the type at index t.
fn with_drawn_there(mut d: DrawnSystem, t: usize, large: bool) -> DrawnSystem {
    let time = scaled(d.below(9), large);
    let memory = scaled(d.below(9), large);
    d.system = systems::with_there_at(d.system, t, Some(Costs { time, memory }));
    d
}

// A system of two kinds, of up to `engines` engines in all and at least one of each kind, and this many types of at most `most` instances each.
pub fn drawn_mixed(seed: u64, engines: usize, typecount: usize, most: usize) -> DrawnSystem {
    let large = draw(seed, 2).value == 1;
    let first = drawn_system(seed, engines.wrapping_sub(1), typecount, most);
    let mut d = with_drawn_second(first, engines, large);
    for t in 0..typecount.min(TYPE_LIMIT) {
        d = with_drawn_there(d, t, large);
    }
    d
}
