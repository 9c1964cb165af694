// Request 2026-14: the run of an engine. From a system file of one kind of engine, the number of instances of each type on an engine and a number of ticks:
// the idle ticks, and the first missed deadline or none. Crate `deadlines` defines it.
#![tactic(auto)]

ghost use Rattle.std.specs.Prelude.{◌≡◌, ◌+◌, ◌≤◌, ◌++◌, replicate, take, drop};
ghost use Rattle.runs.specs.Run.{job_limit};
ghost use Rattle.deadlines.specs.Outcome.{run_outcome_of};
ghost use Rattle.deadlines.specs.Engine.{paced_type, all_paced, instances, job_of_type, jobs_of, run_checks, run_over};
ghost use Rattle.deadlines.specs.Meaning.{RunPromises};
ghost use Rattle.system.specs.Layout.{read_file};
ghost use Rattle.system.specs.Outcome.{checked_of};

use runs::{JOB_LIMIT, Job, Report};
use runs_code::{job_of, run_of};
use system::{Refusal, System, TICK_LIMIT, TYPE_LIMIT, TaskType};

// The type has a C and a T.
fn paced_type(t: TaskType) -> bool
    ensures { result ≡ paced_type t }
{
    t.pace.is_some()
}

// Every type of which an instance stands has a C and a T.
fn all_paced(types: [TaskType; TYPE_LIMIT], counts: [u16; TYPE_LIMIT]) -> bool
    ensures { result ≡ all_paced types counts }
{
    types
        .iter()
        .zip(&counts)
        .all(|(t, count)| (*count == 0) | paced_type(*t))
}

// The instances of all types.
pub fn instances(counts: [u16; TYPE_LIMIT]) -> usize
    ensures { result ≡ instances counts }
{
    counts.iter().map(|count| *count as usize).sum()
}

// An instance of a type before its first job; one without C and T never has a job.
fn job_of_type(t: TaskType) -> Job
    ensures { result ≡ job_of_type t }
{
    t.pace.map_or(job_of(0, 0), |c| job_of(c.run, c.period))
}

// The jobs with `count` more of one kind from a place on.
fn with_jobs(jobs: [Job; JOB_LIMIT], at: usize, count: usize, job: Job) -> [Job; JOB_LIMIT]
    requires { at + count ≤ job_limit }
    ensures { result ≡ take at jobs ++ (replicate count job ++ drop (at + count) jobs) }
{
    let mut next = jobs;
    next[at..at + count].fill(job);
    next
}

// The instances on the engine in order of type: what stands past them is no job. The array that a call answers goes through a variable of its own: the check
// covers no other form.
pub fn jobs_of(types: [TaskType; TYPE_LIMIT], counts: [u16; TYPE_LIMIT]) -> [Job; JOB_LIMIT]
    requires { instances counts ≤ job_limit }
    ensures { take (instances counts) result ≡ jobs_of types counts }
{
    let mut jobs = [job_of(0, 0); JOB_LIMIT];
    let mut at: usize = 0;
    for (t, count) in types.iter().zip(&counts) {
        let count = *count as usize;
        let next = with_jobs(jobs, at, count, job_of_type(*t));
        jobs = next;
        at += count;
    }
    jobs
}

// A type on the engine without C and T: 44. Too many instances or ticks: 45.
fn run_check(
    types: [TaskType; TYPE_LIMIT],
    counts: [u16; TYPE_LIMIT],
    ticks: usize,
) -> Result<(), Refusal>
    ensures { checked_of result ≡ run_checks types counts ticks }
{
    if !all_paced(types, counts) {
        return Err(Refusal::Input(44));
    }
    if !((instances(counts) <= JOB_LIMIT) & (ticks <= TICK_LIMIT as usize)) {
        return Err(Refusal::Input(45));
    }
    Ok(())
}

// The run of an engine of this system.
pub fn run_over(y: System, counts: [u16; TYPE_LIMIT], ticks: usize) -> Result<Report, Refusal>
    ensures { run_outcome_of result ≡ run_over y counts ticks }
{
    run_check(y.types, counts, ticks)?;
    let jobs = jobs_of(y.types, counts);
    Ok(run_of(jobs, instances(counts), ticks as u32))
}

// The run of an engine that holds these counts, over a number of ticks: refused 1 to 10, 31, 41, 43 and 42 as the file is read, then 44, then 45.
// The counts need not fit the engine.
pub fn run_engine(file: &[u8], counts: [u16; TYPE_LIMIT], ticks: usize) -> Result<Report, Refusal>
    ensures { RunPromises (read_file file.now) counts ticks result }
{
    let opened = system_code::read_system(file);
    opened.answer?;
    run_over(opened.system, counts, ticks)
}
