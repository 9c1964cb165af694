// Example: the run of an engine, tick by tick, and whether every deadline is kept. A program of your own can begin as a copy of this one.
// It is proved like everything here, and needs no proof file: neither call has a `requires`, and the loop keeps no fact.
#![tactic(auto)]

use deadlines_code::run_engine;
use planner_code::plan_of;
use runs::Report;
use std::io;
use system::{Refusal, TYPE_LIMIT};

// Plans a system, runs each engine of the plan, and then engines with counts of our own. What cannot be written is left out, and the next is tried.
fn main(rt: HostRuntime) {
    // A system file: the platform (m 2, rule 0, U 12, S 8), type 1 (u 4, s 1, n 2) with C 1 and T 3, type 2 (u 6, s 1, n 2) with C 2 and T 4:
    // an instance of type 1 has a job every 3 ticks that runs for 1, one of type 2 a job every 4 ticks that runs for 2, each due when the next one comes.
    let file =
        b"\x01\x00\x0a\x02\x00\x00\x00\x00\x0c\x00\x00\x00\x08\x02\x00\x0a\x00\x00\x00\x04\x00\x00\x00\x01\x00\x02\x05\x00\x08\x00\x00\x00\x01\x00\x00\x00\x03\x02\x00\x0a\x00\x00\x00\x06\x00\x00\x00\x01\x00\x02\x05\x00\x08\x00\x00\x00\x02\x00\x00\x00\x04";
    // A plan works in a lent table of two parts, of (2 + 1) × (2 + 1) entries or more each.
    let mut rows = [0u16; 9];
    let mut predecessors = [0u16; 9];
    let plan = plan_of(file, &mut rows, &mut predecessors);
    let Ok(Some(used)) = plan.answer else {
        return;
    };
    let _ = println!(rt; "engines {used}");
    // What engine e holds is at index e - 1. No engine of a plan of one kind misses a deadline, whatever number of ticks it runs: that is proved for every
    // file.
    for (number, load) in plan.numbers.iter().zip(plan.loads.iter()).take(used) {
        let _ = print!(rt; "engine {number}");
        say_run(&rt, file, load.counts, 24);
    }
    // The counts need not be those of a plan: how many of each type there are, the six types of a system in order.
    let _ = print!(rt; "one of each type");
    say_run(&rt, file, [1, 1, 0, 0, 0, 0], 12);
    // 2 × 4 + 6 is more than U: the run ends with the first deadline that is missed.
    let _ = print!(rt; "one too many");
    say_run(&rt, file, [2, 1, 0, 0, 0, 0], 12);
    // There is no type 3, so it has no C and T: refused 44.
    let _ = print!(rt; "no type 3");
    say_run(&rt, file, [0, 0, 1, 0, 0, 0], 12);
    // A run has at most 65,535 ticks, and 64 instances: refused 45.
    let _ = print!(rt; "too long");
    say_run(&rt, file, [1, 1, 0, 0, 0, 0], 65536);
}

// Runs an engine that holds these counts over so many ticks, and says what was answered.
fn say_run(rt: &HostRuntime, file: &[u8], counts: [u16; TYPE_LIMIT], ticks: usize) {
    let [one, two, three, ..] = counts;
    let _ = print!(rt; ": holds {one} {two} {three}, ticks {ticks}: ");
    let _ = match run_engine(file, counts, ticks) {
        Ok(report) => say_report(rt, report),
        Err(why) => say_refusal(rt, why),
    };
}

// A report: the ticks in which nobody ran, and the first missed deadline. After a miss only the ticks before it count.
fn say_report(rt: &HostRuntime, report: Report) -> io::Result<()> {
    let idle = report.idle;
    match report.missed {
        None => println!(rt; "idle {idle}, none missed"),
        Some(time) => println!(rt; "idle {idle}, missed at {time}"),
    }
}

// A run is refused from the input only: as the file is read, 42 for two kinds of engine, then 44, then 45.
fn say_refusal(rt: &HostRuntime, why: Refusal) -> io::Result<()> {
    let (Refusal::Input(n) | Refusal::State(n)) = why;
    println!(rt; "refused {n}")
}
