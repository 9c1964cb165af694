// The cases as they stand in the text, a line for each: its name, its kind, a file and seven numbers. By kind:
// - r: a run. The numbers are the six counts and the ticks. Printed are its name, what the call answers, and whether the list of jobs says the same;
// - p: a plan, and a run of each of its engines over seven numbers of ticks. Printed are its name and what the plan answers, and a line for each engine: its
// number and
//   six counts, what the call answers for each number of ticks, and whether the list of jobs says the same each time.
use crate::apart::run_apart;
use crate::calls::{planned, run_called};
use runs::Report;
use std::array;
use system::{Refusal, TYPE_LIMIT};
use trial::cases::Words;
use trial::say::{say, say_also, say_answer};

// The numbers of a case: six counts and the ticks, or seven numbers of ticks.
type Numbers = [usize; TYPE_LIMIT + 1];

// A refusal as a number, for print alone: one from the state, which no run has, past all from the input.
fn number_of(why: Refusal) -> usize {
    match why {
        Refusal::Input(n) => usize::from(n),
        Refusal::State(n) => 1000 + usize::from(n),
    }
}

// What a run answers: its refusal; or its idle ticks, and that all deadlines are kept or when the first is missed.
fn say_answered(rt: &HostRuntime, answer: Result<Report, Refusal>) {
    match answer {
        Ok(report) => say_report(rt, report),
        Err(why) => {
            say(rt, b" no");
            say_also(rt, number_of(why));
        }
    }
}

fn say_report(rt: &HostRuntime, report: Report) {
    say(rt, b" idle");
    say_also(rt, report.idle as usize);
    match report.missed {
        None => say(rt, b" kept"),
        Some(time) => {
            say(rt, b" missed at");
            say_also(rt, time as usize);
        }
    }
}

fn say_agreed(rt: &HostRuntime, agreed: bool) {
    if agreed {
        say(rt, b" agrees\n");
    } else {
        say(rt, b" DIFFERS\n");
    }
}

// A run, and whether both ways say the same.
fn say_run(rt: &HostRuntime, file: &[u8], counts: [u16; TYPE_LIMIT], ticks: usize) -> bool {
    let answer = run_called(file, counts, ticks);
    say_answered(rt, answer);
    answer == run_apart(file, counts, ticks)
}

// The runs of one engine over all numbers of ticks.
fn say_runs(rt: &HostRuntime, file: &[u8], counts: [u16; TYPE_LIMIT], numbers: &Numbers) {
    let mut agreed = true;
    for ticks in numbers {
        agreed &= say_run(rt, file, counts, *ticks);
        say(rt, b",");
    }
    say_agreed(rt, agreed);
}

// An engine of a plan: its number and what it holds.
fn say_engine(rt: &HostRuntime, number: usize, counts: &[u16; TYPE_LIMIT]) {
    say(rt, b"  engine");
    say_also(rt, number);
    say(rt, b" holds");
    for count in counts {
        say_also(rt, usize::from(*count));
    }
    say(rt, b":");
}

fn say_plan(rt: &HostRuntime, file: &[u8], numbers: &Numbers) {
    let plan = planned(file);
    say_answer(rt, plan.answer);
    say(rt, b"\n");
    for (number, load) in plan.numbers.iter().zip(&plan.loads).take(plan.used) {
        say_engine(rt, *number, &load.counts);
        say_runs(rt, file, load.counts, numbers);
    }
}

// A run over the counts and the ticks that are the numbers.
fn say_single(rt: &HostRuntime, file: &[u8], numbers: &Numbers) {
    let mut counts = [0u16; TYPE_LIMIT];
    for (count, n) in counts.iter_mut().zip(numbers) {
        *count = (n % 65536) as u16;
    }
    let agreed = say_run(rt, file, counts, numbers[TYPE_LIMIT]);
    say_agreed(rt, agreed);
}

pub fn say_case(rt: &HostRuntime, line: &[u8]) {
    let mut words = Words::of(line);
    say(rt, words.word());
    say(rt, b":");
    let kind = words.letter();
    let file = words.bytes();
    let numbers: Numbers = array::from_fn(|_| words.number());
    // The letter chooses here and nowhere else: an enum of two would say it twice more.
    match kind {
        b'p' => say_plan(rt, file.as_slice(), &numbers),
        _ => say_single(rt, file.as_slice(), &numbers),
    }
}
