// The parts of a line: a word, an instance's name, what arrives, who runs; and the line that sums up a run.
ghost use Rattle.std.specs.Prelude.{◌≡◌, ◌+◌, ◌≤◌, length, take};
ghost use Rattle.runs.specs.Run.{job_limit};
ghost use Rattle.deadlines.specs.Outcome.{miss_of};
ghost use Rattle.buffer.specs.Written.{Puts};
ghost use Rattle.timeline.specs.Text.{kind_from, number_from, name_text, arrival_text, arrival_at};
ghost use Rattle.timeline.specs.Text.{arrivals_from, runner_text, line_with, missed_at_text, missed_text, summary_line};
ghost use Rattle.timeline.specs.Room.{name_room, arrival_room, arrivals_room, runner_room, tick_room, missed_room, summary_room};

use buffer::{put_byte, put_bytes};
use listing_code::put_number;
use runs::{JOB_LIMIT, Job, Report};
use system::TYPE_LIMIT;

// An instance on the engine: its type and its number there, both from 1.
#[derive(Clone, Copy)]
pub struct Name {
    pub kind: usize,
    pub number: usize,
}

// The instance at a place among all on the engine, those of type 1 first; past the last, no instance: 0 and 0, as `kind_from` and `number_from` say it.
fn name_at(counts: [u16; TYPE_LIMIT], place: usize) -> Name
    ensures { (result.kind ≡ kind_from 1 counts place) × (result.number ≡ number_from counts place) }
{
    let mut left = place;
    for (t, held) in counts.iter().enumerate() {
        let count = *held as usize;
        if left < count {
            return Name {
                kind: t + 1,
                number: left + 1,
            };
        }
        left -= count;
    }
    Name { kind: 0, number: 0 }
}

// Puts the name of the instance at a place, as `1.2`.
fn put_name(out: &mut [u8], at: usize, counts: [u16; TYPE_LIMIT], place: usize) -> usize
    requires { at + name_room ≤ length out.old }
    ensures { Puts (name_text counts place) at out.old out.new result × (result ≤ at + name_room) }
{
    let name = name_at(counts, place);
    let kind = put_number(out, at, name.kind as u64);
    let dot = put_byte(out, kind, b'.');
    put_number(out, dot, name.number as u64)
}

// Puts that the instance at a place arrives, and when it is due.
fn put_due(out: &mut [u8], at: usize, counts: [u16; TYPE_LIMIT], place: usize, due: u64) -> usize
    requires { at + arrival_room ≤ length out.old }
    ensures { Puts (arrival_text counts place due) at out.old out.new result × (result ≤ at + arrival_room) }
{
    let arrives = put_bytes(out, at, b" arrive ");
    let named = put_name(out, arrives, counts, place);
    let dues = put_bytes(out, named, b" due ");
    put_number(out, dues, due)
}

// Puts the arrival of the job at a place, if it arrives now.
fn put_arrival(
    out: &mut [u8],
    at: usize,
    time: u32,
    counts: [u16; TYPE_LIMIT],
    place: usize,
    j: Job,
) -> usize
    requires { at + arrival_room ≤ length out.old }
    ensures { Puts (arrival_at time counts place j) at out.old out.new result × (result ≤ at + arrival_room) }
{
    if j.due == time as u64 {
        return put_due(out, at, counts, place, time as u64 + j.period as u64);
    }
    at
}

// Puts what arrives now, of the first `count` jobs. The array and its count go together, since `one_tick` of crate `runs_code` takes them so.
fn put_arrivals(
    out: &mut [u8],
    at: usize,
    time: u32,
    counts: [u16; TYPE_LIMIT],
    jobs: [Job; JOB_LIMIT],
    count: usize,
) -> usize
    requires { (count ≤ job_limit) × (at + arrivals_room ≤ length out.old) }
    ensures { Puts (arrivals_from time counts 0 (take count jobs)) at out.old out.new result × (result ≤ at + arrivals_room) }
{
    let mut next = at;
    for i in 0..count {
        let j = jobs[i];
        next = put_arrival(out, next, time, counts, i, j);
    }
    next
}

// Puts who runs, the instance at a place, of `all`; there is none where the place is past the last.
fn put_runner(
    out: &mut [u8],
    at: usize,
    counts: [u16; TYPE_LIMIT],
    all: usize,
    place: usize,
) -> usize
    requires { at + runner_room ≤ length out.old }
    ensures { Puts (runner_text counts all place) at out.old out.new result × (result ≤ at + runner_room) }
{
    if place == all {
        return put_bytes(out, at, b" idle");
    }
    let runs = put_bytes(out, at, b" run ");
    put_name(out, runs, counts, place)
}

// Puts the line of a tick, in which the job at a place runs.
pub(crate) fn put_tick(
    out: &mut [u8],
    at: usize,
    time: u32,
    counts: [u16; TYPE_LIMIT],
    jobs: [Job; JOB_LIMIT],
    count: usize,
    place: usize,
) -> usize
    requires { (count ≤ job_limit) × (at + tick_room ≤ length out.old) }
    ensures { Puts (line_with time counts (take count jobs) count place) at out.old out.new result × (result ≤ at + tick_room) }
{
    let named = put_bytes(out, at, b"tick ");
    let told = put_number(out, named, time as u64);
    let came = put_arrivals(out, told, time, counts, jobs, count);
    let ran = put_runner(out, came, counts, count, place);
    put_byte(out, ran, b'\n')
}

// Puts the time of the first missed deadline.
fn put_missed_at(out: &mut [u8], at: usize, time: u32) -> usize
    requires { at + missed_room ≤ length out.old }
    ensures { Puts (missed_at_text time) at out.old out.new result × (result ≤ at + missed_room) }
{
    let missed = put_bytes(out, at, b"missed at ");
    put_number(out, missed, time as u64)
}

// Puts the first missed deadline, or that there is none.
fn put_missed(out: &mut [u8], at: usize, missed: Option<u32>) -> usize
    requires { at + missed_room ≤ length out.old }
    ensures { Puts (missed_text (miss_of missed)) at out.old out.new result × (result ≤ at + missed_room) }
{
    match missed {
        None => put_bytes(out, at, b"none missed"),
        Some(time) => put_missed_at(out, at, time),
    }
}

// Puts the line that sums up a run.
pub(crate) fn put_summary(out: &mut [u8], at: usize, ticks: u64, report: Report) -> usize
    requires { at + summary_room ≤ length out.old }
    ensures { Puts (summary_line ticks report.idle (miss_of report.missed)) at out.old out.new result × (result ≤ at + summary_room) }
{
    let begun = put_bytes(out, at, b"of ");
    let all = put_number(out, begun, ticks);
    let parted = put_bytes(out, all, b" ticks ");
    let idle = put_number(out, parted, report.idle as u64);
    let were = put_bytes(out, idle, b" idle, ");
    let told = put_missed(out, were, report.missed);
    put_byte(out, told, b'\n')
}
