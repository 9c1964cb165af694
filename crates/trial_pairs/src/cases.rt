// Systems that are given: those of document 01, and those of the most columns.
use crate::fills;
use system::System;
use trial::changes::with_number;
use trial::{say, systems};

// A line for a system: 1 where every answer was right, the pairs, and the bound.
fn say_case(rt: &HostRuntime, name: &[u8], y: System) {
    let r = fills::trial_of(y, systems::system_full(0));
    say::say_numbers(rt, name, &[usize::from(r.right), r.pairs, r.bound]);
}

// One type 1,023 times on 16 engines: U, S, u, s and d.
fn most_of(rule: u8, time: u32, memory: u32, u: u32, s: u32, d: u32) -> System {
    let y = systems::platform_of(16, rule, time, memory);
    systems::with_data(systems::with_type(y, u, s, 1023), d)
}

// One type 4,095 times, that needs time alone: U and u.
fn widest_of(engines: usize, time: u32, u: u32) -> System {
    systems::with_type(systems::platform_of(engines, 0, time, 9), u, 0, 4095)
}

// The same with no u: S, s and d.
fn stored_of(engines: usize, memory: u32, s: u32, d: u32) -> System {
    let y = systems::platform_of(engines, 0, 9, memory);
    systems::with_data(systems::with_type(y, 0, s, 4095), d)
}

// Two types n times each.
fn square(engines: usize, rule: u8, time: u32, n: u16) -> System {
    let one = systems::with_type(systems::platform_of(engines, rule, time, 100), 7, 5, n);
    systems::with_most(systems::with_data(systems::with_type(one, 11, 3, n), 2), 4)
}

// The system of six types with more of the first, on two engines.
fn six_types() -> System {
    with_number(
        with_number(systems::system_full(0), b'n', 0, 127),
        b'm',
        0,
        2,
    )
}

// 4,096 columns, mostly of few engines: the count goes over all of them for each row. The memory of 3,277 instances of s and d passes 32 bits, and what
// is then left of it would fit.
fn say_widest(rt: &HostRuntime) {
    say_case(rt, b"n 4095, u over U, m 1:", widest_of(1, 9, 10));
    say_case(
        rt,
        b"n 4095, s and d over S, m 1:",
        stored_of(1, 1000000, 1000000, 310720),
    );
    say_case(rt, b"n 4095, u at U, m 2:", widest_of(2, 9, 9));
    say_case(
        rt,
        b"n 4095, 2047 on an engine, m 2:",
        widest_of(2, 20479, 10),
    );
    say_case(
        rt,
        b"n 4095, 2048 on an engine, m 2:",
        widest_of(2, 20480, 10),
    );
    say_case(rt, b"n 4095, 256 on an engine:", widest_of(16, 2560, 10));
    say_case(rt, b"n 4095, costs nothing:", widest_of(16, 0, 0));
    say_case(rt, b"n 63 twice, U 30, m 2:", square(2, 0, 30, 63));
    say_case(rt, b"n 63 twice, shared, U 90, m 3:", square(3, 1, 90, 63));
    say_case(rt, b"six types, n 127, m 2:", six_types());
    say_case(rt, b"n 3 six times:", systems::six_of(16, [3; 6]));
}

// 1,024 columns and 16 engines.
fn say_wide(rt: &HostRuntime) {
    say_case(rt, b"n 1023, u over U:", most_of(0, 9, 9, 10, 0, 0));
    say_case(rt, b"n 1023, s over S, shared:", most_of(1, 9, 9, 0, 10, 0));
    say_case(rt, b"n 1023, s and d over S:", most_of(1, 9, 9, 0, 5, 5));
    say_case(rt, b"n 1023, u at U:", most_of(0, 9, 9, 9, 0, 0));
    say_case(rt, b"n 1023, s and d at S:", most_of(1, 9, 9, 0, 5, 4));
    say_case(
        rt,
        b"n 1023, 60 on an engine:",
        most_of(0, 600, 9, 10, 0, 0),
    );
    say_case(
        rt,
        b"n 1023, 64 on an engine:",
        most_of(0, 640, 9, 10, 0, 0),
    );
    say_case(
        rt,
        b"n 1023, q 50:",
        systems::with_most(most_of(1, 9, 9, 0, 9, 0), 50),
    );
    say_case(rt, b"n 1023, costs nothing:", most_of(0, 0, 0, 0, 0, 0));
    say_case(rt, b"n 31 twice, U 30:", square(16, 0, 30, 31));
    say_case(rt, b"n 31 twice, shared, U 90:", square(16, 1, 90, 31));
    say_case(rt, b"n 31 twice, U 6:", square(16, 0, 6, 31));
    say_case(rt, b"six types, rule 0:", systems::system_full(0));
    say_case(rt, b"six types, longest:", systems::system_longest(1));
}

pub fn say_cases(rt: &HostRuntime) {
    say::say(rt, b"system: right, pairs, bound\n");
    say_case(rt, b"A:", systems::system_a(3));
    say_case(rt, b"B, m 3:", systems::system_b(3, 0));
    say_case(rt, b"B, shared:", systems::system_b(4, 1));
    say_case(
        rt,
        b"B, shared, q 1:",
        systems::with_most(systems::system_b(4, 1), 1),
    );
    say_case(rt, b"all n 0, m 1:", systems::six_of(1, [0; 6]));
    say_case(rt, b"all n 0, m 16:", systems::six_of(16, [0; 6]));
    say_wide(rt);
    say_widest(rt);
}
