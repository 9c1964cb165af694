// The types that the definitions of a plan speak of. No code: crate `planner_code` has the functions.
#![tactic(auto)]

use loads::EngineLoad;
use system::{Answer, ENGINE_LIMIT};

// A plan: its answer, the used engines, the number of types, and the loads of engines with these numbers, of which the used ones come first.
// Of one kind of engine the numbers are 1 to 16; all loads are 0 where the file is refused, as `PlanPromises` says (`refused_nothing`): so it is no Result.
#[derive(Clone, Copy, PartialEq, Eq)]
pub struct Plan {
    pub answer: Answer,
    pub used: usize,
    pub typecount: usize,
    pub numbers: [usize; ENGINE_LIMIT],
    pub loads: [EngineLoad; ENGINE_LIMIT],
}

// One engine of the lent list.
#[derive(Clone, Copy, PartialEq, Eq)]
pub struct EngineRecord {
    pub number: usize,
    pub load: EngineLoad,
}

// A plan with the records of all engines, of which the first `used` go into the lent list.
#[derive(Clone, Copy, PartialEq, Eq)]
pub struct ListPlan {
    pub answer: Answer,
    pub used: usize,
    pub records: [EngineRecord; ENGINE_LIMIT],
}

// What a plan into a list by value answers, with the list.
#[derive(Clone, Copy, PartialEq, Eq)]
pub struct PlannedList {
    pub answer: Answer,
    pub list: [EngineRecord; ENGINE_LIMIT],
}
