// The types that the definitions of a load speak of. No code: crate `loads_code` has the functions.
#![tactic(auto)]

use system::TYPE_LIMIT;

// What one engine holds: the number of instances of each type, with their time and memory.
#[derive(Clone, Copy, PartialEq, Eq)]
pub struct EngineLoad {
    pub time: u32,
    pub memory: u32,
    pub counts: [u16; TYPE_LIMIT],
}

// The time and the memory of a load, before anybody asked whether it fits.
#[derive(Clone, Copy, PartialEq, Eq)]
pub struct Sums {
    pub time: u64,
    pub memory: u64,
}
