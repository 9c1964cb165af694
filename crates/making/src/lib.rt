// Trial systems that everyone can make again (request 2026-12): the types, with the definitions and theorems on them. No code: that is crate `making_code`.
#![tactic(auto)]

use system::TaskType;

// What a trial system is made from: the seed, the m, rule, U, S and k that it is to have, and g, the top count.
#[derive(Clone, Copy, PartialEq, Eq)]
pub struct Recipe {
    pub seed: u64,
    pub engines: usize,
    pub rule: u8,
    pub timecap: u32,
    pub memorycap: u32,
    pub typecount: usize,
    pub top: u64,
}

// A type drawn, and the generator's value after its draws.
#[derive(Clone, Copy, PartialEq, Eq)]
pub struct Draw {
    pub value: u64,
    pub task: TaskType,
}
