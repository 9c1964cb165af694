// The types of the run of an engine (request 2026-14), with the definitions and theorems on them: no code. The functions stand in crate `runs_code`.
#![tactic(auto)]

// The most jobs on an engine.
pub const JOB_LIMIT: usize = 64;

// An instance on the engine: run time and period in ticks, what is left of the job at hand, and the time that it is due. That time is the sum of a time
// and a period, so it fits.
#[derive(Clone, Copy, PartialEq, Eq)]
pub struct Job {
    pub run: u32,
    pub period: u32,
    pub left: u32,
    pub due: u64,
}

// What a run reports: the ticks in which no job ran, and the first missed deadline, where it ends.
#[derive(Clone, Copy, PartialEq, Eq)]
pub struct Report {
    pub idle: u32,
    pub missed: Option<u32>,
}

// What one tick does: the jobs after its arrivals, the place of the job that runs, the number of jobs where none does, and the jobs after it.
#[derive(Clone, Copy, PartialEq, Eq)]
pub struct Tick {
    pub here: [Job; JOB_LIMIT],
    pub at: usize,
    pub next: [Job; JOB_LIMIT],
}
