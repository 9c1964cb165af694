// Writes the text that program `watch` writes for an engine of a plan (request 2026-14): a line for each tick that is shown, and a line that sums up the
// whole run.
// Crate `timeline` defines it. The line of a refusal, with its word, is crate `listing_code`'s.
// No literal here holds one of the words that the listing keeps in its one string.
//
// The functions that put something into the buffer answer the place after it. Each asks for the room that its part can take, and promises to take no more.
#![tactic(auto)]

mod lines;
mod ticks;

ghost use Rattle.std.specs.Prelude.{◌≤◌, length, take};
ghost use Rattle.system.specs.Limits.{engine_limit, tick_limit};
ghost use Rattle.system.specs.Layout.{read_file, read_system};
ghost use Rattle.runs.specs.Run.{job_limit};
ghost use Rattle.deadlines.specs.Engine.{instances, jobs_of};
ghost use Rattle.deadlines.specs.Outcome.{miss_of};
ghost use Rattle.buffer.specs.Written.{Puts, Written};
ghost use Rattle.listing.specs.Listing.{refusal_line};
ghost use Rattle.listing.specs.Demands.{number_of};
ghost use Rattle.timeline.specs.Text.{report_text};
ghost use Rattle.timeline.specs.Whole.{counts_text, engine_with};
ghost use Rattle.timeline.specs.Room.{text_room, watch_bytes};
ghost use Rattle.timeline.specs.Meaning.{WatchPromises, JoinedPromises, ReadPromises};

use buffer::{least, put_bytes};
use deadlines_code::{instances, jobs_of, run_over};
use lines::put_summary;
use listing_code::write_refusal;
use loads::EngineLoad;
use planner_code::plan_one_kind;
use runs::Report;
use system::{
    COLUMN_LIMIT, Cursor, ENGINE_LIMIT, FILE_BYTES, Refusal, System, TYPE_LIMIT, TaskType,
};
use system_code::{byte_at, four_bytes, read_system, rest_at};
use ticks::put_window;

// The bytes of the longest text: 32 lines of at most 4,808 and a last one of at most 88 fit.
pub const WATCH_BYTES: usize = 160000;

// The bytes that stand before the file in what the program reads: the engine's number, 1 byte, the ticks and the first tick that is shown, 4 bytes each.
const NUMBER_BYTES: usize = 9;

// The bytes that the program reads: these and the first `FILE_BYTES` of the file.
pub const WATCH_FRONT: usize = NUMBER_BYTES + FILE_BYTES;

// Puts the first bytes of a line at the start of the buffer.
fn put_line(out: &mut [u8], line: [u8; 4096], size: usize) -> usize
    requires { (size ≤ length line) × (watch_bytes ≤ length out.old) }
    ensures { Puts (take size line) 0 out.old out.new result × (result ≤ watch_bytes) }
{
    put_bytes(out, 0, &line[..size])
}

// Puts the line of a refusal: it is written to a buffer of its own, of the size that crate `listing_code` asks for, and copied.
fn put_refusal(out: &mut [u8], why: Refusal) -> usize
    requires { watch_bytes ≤ length out.old }
    ensures { Puts (refusal_line (number_of why)) 0 out.old out.new result × (result ≤ watch_bytes) }
{
    let mut line = [0u8; 4096];
    let size = write_refusal(&mut line, why);
    put_line(out, line, size)
}

// Puts the text of a run that has a report.
fn put_report(
    out: &mut [u8],
    types: [TaskType; TYPE_LIMIT],
    counts: [u16; TYPE_LIMIT],
    ticks: usize,
    from: usize,
    report: Report,
) -> usize
    requires { (instances counts ≤ job_limit) × (ticks ≤ tick_limit) × (text_room ≤ length out.old) }
    ensures { Puts (report_text (jobs_of types counts) counts ticks from report.idle (miss_of report.missed)) 0 out.old out.new result × (result ≤ text_room) }
{
    let jobs = jobs_of(types, counts);
    let count = instances(counts);
    let told = put_window(out, counts, jobs, count, ticks, from);
    put_summary(out, told, ticks as u64, report)
}

// Writes the text of an engine that holds these counts.
fn write_counts(
    out: &mut [u8; WATCH_BYTES],
    y: System,
    counts: [u16; TYPE_LIMIT],
    ticks: usize,
    from: usize,
) -> usize
    ensures { Written (counts_text y counts ticks from) out.old out.new result }
{
    match run_over(y, counts, ticks) {
        Ok(report) => {
            let types = y.types;
            put_report(out, types, counts, ticks, from, report)
        }
        Err(why) => put_refusal(out, why),
    }
}

// Writes the text of an engine of a plan, of which these are the loads.
fn write_engine(
    out: &mut [u8; WATCH_BYTES],
    y: System,
    loads: [EngineLoad; ENGINE_LIMIT],
    engine: usize,
    ticks: usize,
    from: usize,
) -> usize
    requires { y.engines ≤ engine_limit }
    ensures { Written (engine_with y loads engine ticks from) out.old out.new result }
{
    if (1 <= engine) & (engine <= y.engines) {
        let load = loads[engine - 1];
        let counts = load.counts;
        return write_counts(out, y, counts, ticks, from);
    }
    put_bytes(out, 0, b"no such number\n")
}

// Writes the text of an engine of a plan of this file.
fn write_planned(
    file: &[u8],
    loads: [EngineLoad; ENGINE_LIMIT],
    engine: usize,
    ticks: usize,
    from: usize,
    out: &mut [u8; WATCH_BYTES],
) -> usize
    ensures { Written (engine_with (read_system (read_file file.now)) loads engine ticks from) out.old out.new result }
{
    let opened = read_system(file);
    let y = opened.system;
    write_engine(out, y, loads, engine, ticks, from)
}

// Writes the text of an engine of the plan of a system file at the start of the buffer, and answers its length. The table is the function's own and long
// enough for every system.
pub fn watch_of(
    file: &[u8],
    engine: usize,
    ticks: usize,
    from: usize,
    out: &mut [u8; WATCH_BYTES],
) -> usize
    ensures { WatchPromises file.now engine ticks from out.old out.new result }
{
    let mut rows = [0u16; COLUMN_LIMIT];
    let mut predecessors = [0u16; COLUMN_LIMIT];
    let plan = plan_one_kind(file, &mut rows, &mut predecessors);
    if let Err(why) = plan.answer {
        return put_refusal(out, why);
    }
    let loads = plan.loads;
    write_planned(file, loads, engine, ticks, from, out)
}

// The same for numbers and a file that are joined, as the program reads them.
fn watch_joined(joined: &[u8], out: &mut [u8; WATCH_BYTES]) -> usize
    ensures { JoinedPromises joined.now out.old out.new result }
{
    let engine = byte_at(joined, 0) as usize;
    let ticks = four_bytes(joined, 1) as usize;
    let from = four_bytes(joined, 5) as usize;
    let file = rest_at(joined, Cursor { at: NUMBER_BYTES });
    watch_of(file, engine, ticks, from, out)
}

// The same for such an input of which `read` bytes were read, at most `WATCH_FRONT` of them. A longer file has the same text.
pub fn watch_read(front: [u8; WATCH_FRONT], read: usize, out: &mut [u8; WATCH_BYTES]) -> usize
    ensures { ReadPromises front read out.old out.new result }
{
    let end = least(read, WATCH_FRONT);
    watch_joined(&front[..end], out)
}
