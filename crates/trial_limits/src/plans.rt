// Plans, by value and into a list, and filling alone, over the first entries of two parts: the answer, what each engine gets, and the table.
use crate::lent::{OLD, say_table};
use planner_code::{plan_list, plan_of};
use system::{ENGINE_LIMIT, TYPE_LIMIT};
use table_code::fill_table;
use trial::lent::Lengths;
use trial::say;
use trial_records::say_record;

// A plan by value, with the loads of the used engines.
fn say_plan(rt: &HostRuntime, file: &[u8], rows: &mut [u16], predecessors: &mut [u16]) {
    let plan = plan_of(file, rows, predecessors);
    say::say_answer(rt, plan.answer);
    for load in plan.loads.iter().take(plan.used) {
        say::say_load(rt, *load, TYPE_LIMIT);
    }
}

// A plan into a list, with all its records.
fn say_list(rt: &HostRuntime, file: &[u8], rows: &mut [u16], predecessors: &mut [u16]) {
    let list = [trial_records::OLD; ENGINE_LIMIT];
    let planned = plan_list(file, rows, predecessors, list);
    say::say_answer(rt, planned.answer);
    for record in &planned.list {
        say_record(rt, record);
    }
}

// A line for a call over the first entries of both parts, and one for the table after it.
fn say_over<F: FnOnce(&mut [u16], &mut [u16])>(
    rt: &HostRuntime,
    name: &[u8],
    file: &[u8],
    lent: Lengths,
    say_call: F,
)
    requires { F.IsAlwaysCallable say_call }
{
    let mut parts = OLD;
    say::say(rt, name);
    say::say_also(rt, lent.rows);
    say::say_also(rt, lent.predecessors);
    parts.lent(lent, say_call);
    say::say(rt, b"\n");
    say_table(rt, &parts, file);
}

pub fn say_ways(rt: &HostRuntime, file: &[u8], lent: Lengths) {
    say_over(rt, b"plan", file, lent, |rows, predecessors| {
        say_plan(rt, file, rows, predecessors)
    });
    say_over(rt, b"list", file, lent, |rows, predecessors| {
        say_list(rt, file, rows, predecessors)
    });
    say_over(rt, b"fill", file, lent, |rows, predecessors| {
        say::say_answer(rt, fill_table(file, rows, predecessors))
    });
}
