// Cases that are given: document 01's W1 to W8, system B with data memory under both rules, and plans that a q alone decides. A line for each.
use crate::right::{LONG, both, planned};
use planner_code::plan_of;
use system::System;
use trial::{files, say, systems};

// A case that is given: the answer, then time, memory and counts of each used engine.
fn say_case(rt: &HostRuntime, name: &[u8], y: System) {
    let (plan, _) = planned(y, both(LONG));
    say::say(rt, name);
    say::say_answer(rt, plan.answer);
    for load in plan.loads.iter().take(plan.used) {
        say::say_load(rt, *load, plan.typecount);
    }
    say::say(rt, b"\n");
}

// The columns at which row 1 says yes.
fn say_yes(rt: &HostRuntime, rows: &[u16; LONG]) {
    for (column, row) in rows.iter().enumerate().take(12) {
        if *row <= 1 {
            say::say_also(rt, column);
        }
    }
    say::say(rt, b"\n");
}

// The first 13 entries of a part.
fn say_part(rt: &HostRuntime, name: &[u8], part: &[u16; LONG]) {
    say::say(rt, name);
    for entry in part.iter().take(13) {
        say::say_also(rt, usize::from(*entry));
    }
    say::say(rt, b"\n");
}

// W1 and W2: the columns at which row 1 of A's table says yes, and what row 2 holds at column 11, whose lowest yes row it is. Then both parts, and an entry
// past them.
fn say_cells(rt: &HostRuntime, y: System) {
    let f = files::file_of(y);
    let mut rows = [9; LONG];
    let mut predecessors = [9; LONG];
    plan_of(f.as_slice(), &mut rows, &mut predecessors);
    say::say(rt, b"W1");
    say_yes(rt, &rows);
    say::say_count(rt, b"W2", usize::from(predecessors[11]));
    say_part(rt, b"A, rows", &rows);
    say_part(rt, b"A, predecessors", &predecessors);
}

fn say_worked(rt: &HostRuntime) {
    let a = systems::system_a(3);
    let none = systems::with_type(systems::platform_of(3, 0, 10, 8), 4, 3, 0);
    let free = systems::platform_of(1, 0, 0, 0);
    say_cells(rt, a);
    say_case(rt, b"W3", a);
    say_case(rt, b"W4", systems::system_b(4, 0));
    say_case(rt, b"W5", systems::system_b(4, 1));
    say_case(rt, b"W6", systems::system_b(3, 0));
    say_case(rt, b"W7", systems::with_type(none, 3, 2, 0));
    say_case(rt, b"W8", systems::with_type(free, 0, 0, 1));
}

// System B on four engines with data memory: under rule 1 as many share an engine as leave room for the d of each, under rule 0 each
// instance has s and d.
fn say_data(rt: &HostRuntime) {
    say_case(
        rt,
        b"B own, d 3:",
        systems::with_data(systems::system_b(4, 0), 3),
    );
    say_case(
        rt,
        b"B own, d 4:",
        systems::with_data(systems::system_b(4, 0), 4),
    );
    say_case(
        rt,
        b"B shared, d 0:",
        systems::with_data(systems::system_b(4, 1), 0),
    );
    say_case(
        rt,
        b"B shared, d 1:",
        systems::with_data(systems::system_b(4, 1), 1),
    );
    say_case(
        rt,
        b"B shared, d 2:",
        systems::with_data(systems::system_b(4, 1), 2),
    );
    say_case(
        rt,
        b"B shared, d 3:",
        systems::with_data(systems::system_b(4, 1), 3),
    );
    say_case(
        rt,
        b"B shared, d 4:",
        systems::with_data(systems::system_b(4, 1), 4),
    );
    let one = systems::with_type(systems::platform_of(2, 1, 10, 8), 2, 2, 2);
    let two = systems::with_type(systems::with_data(one, 1), 2, 1, 2);
    say_case(rt, b"two types, shared:", systems::with_data(two, 2));
}

// System B under rule 1 with this many engines, this d and this q.
fn shared(engines: usize, data: u32, q: u16) -> System {
    systems::with_most(systems::with_data(systems::system_b(engines, 1), data), q)
}

// One engine has the time and the memory for all of B's instances where they share code, and for three of them with d 1: the rest goes by q.
fn say_shared_mosts(rt: &HostRuntime) {
    say_case(rt, b"B shared, q 1:", shared(4, 0, 1));
    say_case(rt, b"B shared, q 2:", shared(4, 0, 2));
    say_case(rt, b"B shared, q 3:", shared(4, 0, 3));
    say_case(rt, b"B shared, q 4:", shared(4, 0, 4));
    say_case(rt, b"B shared, q 5:", shared(4, 0, 5));
    say_case(rt, b"B shared, q 65535:", shared(4, 0, 65535));
    say_case(rt, b"B shared, q 1, m 3:", shared(3, 0, 1));
    say_case(rt, b"B shared, q 2, m 2:", shared(2, 0, 2));
    say_case(rt, b"B shared, d 1, q 2:", shared(4, 1, 2));
    say_case(rt, b"B shared, d 1, q 3:", shared(4, 1, 3));
    say_case(rt, b"B shared, d 2, q 65535:", shared(4, 2, 65535));
    say_case(rt, b"B shared, d 1, q 2, m 1:", shared(1, 1, 2));
}

// System A on three engines with a q for one type or both; instances that cost nothing, which a q still parts; and a type of which none is
// placed.
fn say_other_mosts(rt: &HostRuntime) {
    let a = systems::system_a(3);
    let free = systems::with_type(systems::platform_of(4, 0, 0, 0), 0, 0, 4);
    let own = systems::with_type(systems::platform_of(2, 0, 10, 8), 2, 2, 4);
    let none = systems::with_type(systems::platform_of(2, 0, 10, 8), 4, 3, 0);
    say_case(rt, b"A, q 1 of type 2:", systems::with_most(a, 1));
    say_case(
        rt,
        b"A, q 1 of type 1:",
        systems::with_most_at(a, 0, Some(1)),
    );
    say_case(
        rt,
        b"A, q 1 of both:",
        systems::with_most_at(systems::with_most(a, 1), 0, Some(1)),
    );
    say_case(rt, b"own, q 2:", systems::with_most(own, 2));
    say_case(rt, b"own, q 1:", systems::with_most(own, 1));
    say_case(rt, b"free, q 1:", systems::with_most(free, 1));
    say_case(rt, b"free, q 3:", systems::with_most(free, 3));
    say_case(rt, b"n 0, q 1:", systems::with_most(none, 1));
}

pub fn say_cases(rt: &HostRuntime) {
    say_worked(rt);
    say_data(rt);
    say_shared_mosts(rt);
    say_other_mosts(rt);
}
