// The run of an engine (request 2026-14): each tick the pending job with the earliest deadline runs. Crate `runs` defines it.
// The jobs stay an array and their count, so that `count ≤ job_limit` stands in each contract, and `run_of` goes by index: as one tick after another over a
// slice of them it took 1.4 times as long, and its bar is 2 times C. The place past the last stands for no job, as `chosen` and `idle_at` of crate `runs` say.
#![tactic(auto)]

ghost use Rattle.std.specs.Prelude.{◌≡◌, ◌≤◌, ◌<◌, not, ◌&&◌, get_or, take, Some};
ghost use Rattle.runs.specs.Run.{job_of, job_limit, late_job, fresh_job, arrived_job, worked_job, started, late, arrived, pending, due_before};
ghost use Rattle.runs.specs.Run.{chosen, worked_at, worked, idle_at, run_from, run_of};

use runs::{JOB_LIMIT, Job, Report, Tick};

// What a run reports that ends with a miss now.
fn missed_at(idle: u32, now: u32) -> Report
    ensures { result ≡ record { idle = idle; missed = Some now } }
{
    Report {
        idle,
        missed: Some(now),
    }
}

// An instance before its first job: nothing is left to do, and one arrives at 0. With run time and period 0 it is no instance.
pub fn job_of(run: u32, period: u32) -> Job
    ensures { result ≡ job_of run period 0 0 }
{
    Job {
        run,
        period,
        left: 0,
        due: 0,
    }
}

// Whether a job misses its deadline now.
fn late_job(now: u32, j: Job) -> bool
    ensures { result ≡ late_job now j }
{
    (j.due == now as u64) & (j.left > 0)
}

// A job that arrives now.
fn fresh_job(now: u32, j: Job) -> Job
    ensures { result ≡ fresh_job now j }
{
    Job {
        left: j.run,
        due: now as u64 + j.period as u64,
        ..j
    }
}

// A job after its arrival, if it arrives now.
fn arrived_job(now: u32, j: Job) -> Job
    ensures { result ≡ arrived_job now j }
{
    if j.due == now as u64 {
        fresh_job(now, j)
    } else {
        j
    }
}

// A job after one tick of work for it.
fn worked_job(j: Job) -> Job
    ensures { result ≡ worked_job j }
{
    Job {
        left: j.left.saturating_sub(1),
        ..j
    }
}

// The jobs before the first tick.
pub fn started(jobs: [Job; JOB_LIMIT], count: usize) -> [Job; JOB_LIMIT]
    requires { count ≤ job_limit }
    ensures { take count result ≡ started (take count jobs) }
{
    let mut out = jobs;
    for j in &mut out[..count] {
        *j = job_of(j.run, j.period);
    }
    out
}

// Whether a job misses its deadline now.
pub fn late(now: u32, jobs: [Job; JOB_LIMIT], count: usize) -> bool
    requires { count ≤ job_limit }
    ensures { result ≡ late now (take count jobs) }
{
    jobs[..count].iter().any(|j| late_job(now, *j))
}

// The jobs after the arrivals of now.
fn arrived(now: u32, jobs: [Job; JOB_LIMIT], count: usize) -> [Job; JOB_LIMIT]
    requires { count ≤ job_limit }
    ensures { take count result ≡ arrived now (take count jobs) }
{
    let mut out = jobs;
    for j in &mut out[..count] {
        *j = arrived_job(now, *j);
    }
    out
}

// Whether there is a job at a place, and its deadline `due` is before d.
fn due_before(count: usize, at: usize, due: u64, d: u64) -> bool
    ensures { result ≡ due_before count at due d }
{
    (at != count) & (due < d)
}

// Whether a job is chosen rather than the one at a place after it, whose deadline is `due`, or none.
fn takes(count: usize, at: usize, due: u64, j: Job) -> bool
    ensures { result ≡ (pending j && not (due_before count at due j.due)) }
{
    let other = due_before(count, at, due, j.due);
    (j.left > 0) & !other
}

// The place of the first pending job with the earliest deadline, `count` where none is pending: from the last job down, by index, as `run_of` looks for it.
fn chosen(jobs: [Job; JOB_LIMIT], count: usize) -> usize
    requires { count ≤ job_limit }
    ensures { result ≡ chosen (take count jobs) }
{
    let mut best = count;
    let mut due: u64 = 0;
    let mut i = count;
    while i > 0 {
        i -= 1;
        let j = jobs[i];
        if takes(count, best, due, j) {
            best = i;
            due = j.due;
        }
    }
    best
}

// The jobs after one tick of work for the job at a place, if there is one.
fn worked_at(jobs: [Job; JOB_LIMIT], count: usize, at: usize) -> [Job; JOB_LIMIT]
    requires { count ≤ job_limit }
    ensures { take count result ≡ worked_at (take count jobs) at }
{
    let mut out = jobs;
    if at < count {
        let j = jobs[at];
        out[at] = worked_job(j);
    }
    out
}

// One tick of the first `count` jobs.
pub fn one_tick(now: u32, jobs: [Job; JOB_LIMIT], count: usize) -> Tick
    requires { count ≤ job_limit }
    ensures here_value { take count result.here ≡ arrived now (take count jobs) }
    ensures at_value { result.at ≡ chosen (arrived now (take count jobs)) }
    ensures next_value { take count result.next ≡ worked (arrived now (take count jobs)) }
{
    let here = arrived(now, jobs, count);
    let at = chosen(here, count);
    let next = worked_at(here, count, at);
    Tick { here, at, next }
}

// 1 in a tick in which no job runs.
fn idle_at(count: usize, at: usize) -> u32
    ensures { (result ≡ idle_at count at) × (result ≤ 1) }
{
    u32::from(at == count)
}

// What a run reports that comes to its last tick's end.
fn ended(idle: u32, now: u32, jobs: [Job; JOB_LIMIT], count: usize) -> Report
    requires { count ≤ job_limit }
    ensures { result ≡ run_from 0 now idle (take count jobs) }
{
    if late(now, jobs, count) {
        return missed_at(idle, now);
    }
    Report { idle, missed: None }
}

// The run of the first `count` jobs over a number of ticks, up to the first missed deadline. One loop, since a function for each step of a tick would
// copy the jobs: in each tick the jobs are seen from the last one down, the first `i` of them still to be seen, and then the chosen one works.
pub fn run_of(jobs: [Job; JOB_LIMIT], count: usize, ticks: u32) -> Report
    requires { count ≤ job_limit }
    ensures { result ≡ run_of ticks (take count jobs) }
{
    let mut state = started(jobs, count);
    let mut idle: u32 = 0;
    let mut now: u32 = 0;
    let mut i = count;
    let mut best = count;
    let mut due: u64 = 0;
    while now < ticks {
        if i > 0 {
            i -= 1;
            let mut j = state[i];
            if late_job(now, j) {
                return missed_at(idle, now);
            }
            if j.due == now as u64 {
                j = fresh_job(now, j);
                state[i] = j;
            }
            if takes(count, best, due, j) {
                best = i;
                due = j.due;
            }
        } else {
            idle += idle_at(count, best);
            if best < count {
                let j = state[best];
                state[best] = worked_job(j);
            }
            now += 1;
            i = count;
            best = count;
        }
    }
    ended(idle, now, state, count)
}
