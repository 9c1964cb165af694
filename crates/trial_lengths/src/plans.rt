// Plans by value and into a list of 16 records, causes, and an answer alone.
use causes::Cause;
use causes_code::cause_number;
use planner::{Plan, PlannedList};
use system::{Answer, Refusal, TYPE_LIMIT};
use trial::say;
use trial_records::say_changed;

// The loads of the used engines, with their numbers.
pub fn say_plan(rt: &HostRuntime, plan: &Plan) {
    say::say_answer(rt, plan.answer);
    for (number, load) in plan.numbers.iter().zip(&plan.loads).take(plan.used) {
        say::say_also(rt, *number);
        say::say_load(rt, *load, TYPE_LIMIT);
    }
    say::say(rt, b"\n");
}

pub fn say_answer(rt: &HostRuntime, answer: Answer) {
    say::say_answer(rt, answer);
    say::say(rt, b"\n");
}

pub fn say_list(rt: &HostRuntime, planned: &PlannedList) {
    say::say_answer(rt, planned.answer);
    for record in &planned.list {
        say_changed(rt, record);
    }
    say::say(rt, b"\n");
}

// The type that a cause names, for print alone: 0 for none.
fn named_by(cause: Cause) -> usize {
    match cause {
        Cause::OneTooLarge(t) => t,
        _ => 0,
    }
}

// A cause by its number and the type that it names, or a refusal.
pub fn say_cause(rt: &HostRuntime, a: Result<Cause, Refusal>) {
    match a {
        Ok(cause) => {
            say::say(rt, b" cause");
            say::say_also(rt, cause_number(cause) as usize);
            say::say_also(rt, named_by(cause));
        }
        Err(r) => say::say_answer(rt, Err(r)),
    }
    say::say(rt, b"\n");
}
