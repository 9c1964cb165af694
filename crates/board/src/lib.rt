// The types of the live board. What the calls do and mean is defined and proved in this crate, their functions stand in crate `board_code`.
#![tactic(auto)]

use loads::EngineLoad;
use system::{Answer, ENGINE_LIMIT, System};

// A board: the system, each engine's load with its stored time and memory, and whether it is marked, that is, out of service. Engine e is
// at index e - 1.
#[derive(Clone, Copy, PartialEq, Eq)]
pub struct Board {
    pub system: System,
    pub loads: [EngineLoad; ENGINE_LIMIT],
    pub marks: [bool; ENGINE_LIMIT],
}

// What a call answers, with the board after it: the one handed in where the call is refused.
#[derive(Clone, Copy, PartialEq, Eq)]
pub struct Turn {
    pub answer: Answer,
    pub board: Board,
}
