// The lines of the ticks that are shown: the run from its start to the first of them, and then a line for each.
ghost use Rattle.std.specs.Prelude.{◌≡◌, ◌+◌, ◌≤◌, length, take};
ghost use Rattle.system.specs.Limits.{tick_limit};
ghost use Rattle.runs.specs.Run.{job_limit};
ghost use Rattle.runs.specs.Trace.{state_at};
ghost use Rattle.buffer.specs.Written.{Puts};
ghost use Rattle.timeline.specs.Text.{shown_limit, tick_lines, window_text};
ghost use Rattle.timeline.specs.Room.{ticks_room};

use crate::lines::put_tick;
use buffer::least;
use runs::{JOB_LIMIT, Job};
use runs_code::{one_tick, started};
use system::TYPE_LIMIT;

// The ticks that are shown at most.
const SHOWN_LIMIT: usize = 32;

// The jobs at an instant, before its arrivals.
fn state_at(jobs: [Job; JOB_LIMIT], count: usize, time: u32) -> [Job; JOB_LIMIT]
    requires { count ≤ job_limit }
    ensures { take count result ≡ state_at time (take count jobs) }
{
    let mut state = started(jobs, count);
    for now in 0..time {
        let tick = one_tick(now, state, count);
        state = tick.next;
    }
    state
}

// Puts the lines of some ticks, from one on; the jobs are those before its arrivals.
fn put_ticks(
    out: &mut [u8],
    from: u32,
    shown: usize,
    counts: [u16; TYPE_LIMIT],
    jobs: [Job; JOB_LIMIT],
    count: usize,
) -> usize
    requires { (count ≤ job_limit) × (shown ≤ shown_limit) × (from + shown ≤ tick_limit) × (ticks_room ≤ length out.old) }
    ensures { Puts (tick_lines shown from counts (take count jobs)) 0 out.old out.new result × (result ≤ ticks_room) }
{
    let mut state = jobs;
    let mut next: usize = 0;
    for now in from..from + shown as u32 {
        let tick = one_tick(now, state, count);
        next = put_tick(out, next, now, counts, state, count, tick.at);
        state = tick.next;
    }
    next
}

// Puts the lines of the ticks that are shown: those from `from` on, before the last tick's end, at most 32.
pub(crate) fn put_window(
    out: &mut [u8],
    counts: [u16; TYPE_LIMIT],
    jobs: [Job; JOB_LIMIT],
    count: usize,
    ticks: usize,
    from: usize,
) -> usize
    requires { (count ≤ job_limit) × (ticks ≤ tick_limit) × (ticks_room ≤ length out.old) }
    ensures { Puts (window_text (take count jobs) counts ticks from) 0 out.old out.new result × (result ≤ ticks_room) }
{
    if ticks <= from {
        return 0;
    }
    let shown = least(SHOWN_LIMIT, ticks - from);
    let state = state_at(jobs, count, from as u32);
    put_ticks(out, from as u32, shown, counts, state, count)
}
