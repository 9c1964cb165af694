// Systems made part by part, document 01's systems A and B, and systems at the limits.
ghost use Rattle.std.specs.Prelude.{◌≡◌, ◌-◌, ◌<◌, ◌≤◌, Some, slice_get, slice_set};
ghost use Rattle.std.specs.Fn.{FnOnceReturnsAtMut};

use system::{Costs, Cycle, Kind, System, TYPE_LIMIT, TaskType};

// A number of 16 bits, for sums that pass them.
pub fn wide(n: u16) -> usize
    ensures { result < 65536 }
{
    usize::from(n)
}

// Two numbers of 32 bits, multiplied.
pub fn product(a: u32, b: u32) -> u64 {
    u64::from(a) * u64::from(b)
}

// What stands for a type that a system has not, every number written out.
fn no_type() -> TaskType {
    TaskType {
        time: 0,
        memory: 0,
        ceiling: 0,
        data: 0,
        most: None,
        pace: None,
        there: None,
    }
}

// The system that a refusal hands out, every number written out: apart from the one of the code under test, which is compared with it.
pub fn no_system() -> System {
    System {
        engines: 0,
        rule: 0,
        timecap: 0,
        memorycap: 0,
        typecount: 0,
        types: [no_type(); TYPE_LIMIT],
        second: None,
    }
}

// A system with no type yet: m, rule, U and S.
pub fn platform_of(engines: usize, rule: u8, time: u32, memory: u32) -> System {
    System {
        engines,
        rule,
        timecap: time,
        memorycap: memory,
        ..no_system()
    }
}

// The system with one type more: u, s and n, d 0, no q, no C and T. As it is, where it has six.
pub fn with_type(mut y: System, time: u32, memory: u32, ceiling: u16) -> System {
    if y.typecount < TYPE_LIMIT {
        y.types[y.typecount] = TaskType {
            time,
            memory,
            ceiling,
            ..no_type()
        };
        y.typecount += 1;
    }
    y
}

// The index of its last type, no type's where it has none.
pub fn last_of(y: System) -> usize
    ensures last { 0 < y.typecount → result ≡ y.typecount - 1 }
    ensures none { y.typecount ≡ 0 → 6 ≤ result }
{
    y.typecount.wrapping_sub(1)
}

// The system with the type at index t changed, which may be past the last one. As it is, where it has no such entry.
pub fn with_task<F: FnOnce(&mut TaskType)>(mut y: System, t: usize, change: F) -> System
    requires { F.IsAlwaysCallable change }
    ensures changed { (task : _) → slice_get y.types t ≡ Some task →
        (left : _) × FnOnceReturnsAtMut F.FnOnce change task tt left × (result ≡ record y { types = slice_set y.types t left }) }
    ensures past { 6 ≤ t → result ≡ y }
{
    if t < TYPE_LIMIT {
        change(&mut y.types[t]);
    }
    y
}

// The system with another d of its last type, where it has one to six.
pub fn with_data(y: System, data: u32) -> System {
    with_task(y, last_of(y), |task| task.data = data)
}

// The system with another q, or none, of the type at index t.
pub fn with_most_at(y: System, t: usize, most: Option<u16>) -> System {
    with_task(y, t, |task| task.most = most)
}

// The system with this q of its last type, where it has one to six.
pub fn with_most(y: System, q: u16) -> System {
    with_most_at(y, last_of(y), Some(q))
}

// The system with another C and T, or none, of the type at index t.
pub fn with_pace_at(y: System, t: usize, pace: Option<Cycle>) -> System {
    with_task(y, t, |task| task.pace = pace)
}

// The system with this C and T of its last type, where it has one to six.
pub fn with_pace(y: System, run: u32, period: u32) -> System {
    with_pace_at(y, last_of(y), Some(Cycle { run, period }))
}

// The u of its last type, 0 where it has none or more than six.
pub fn last_time(y: System) -> u32 {
    y.types.get(last_of(y)).map_or(0, |task| task.time)
}

// The system with other costs on the second kind, or none, of the type at index t.
pub fn with_there_at(y: System, t: usize, there: Option<Costs>) -> System {
    with_task(y, t, |task| task.there = there)
}

// The system with this u and s on the second kind of its last type, where it has one to six.
pub fn with_there(y: System, time: u32, memory: u32) -> System {
    with_there_at(y, last_of(y), Some(Costs { time, memory }))
}

// The system with this second kind of engine, or none.
pub fn with_kinds(mut y: System, second: Option<Kind>) -> System {
    y.second = second;
    y
}

// The system with a second kind of so many engines: U and S there.
pub fn with_second(y: System, number: usize, timecap: u32, memorycap: u32) -> System {
    with_kinds(
        y,
        Some(Kind {
            number,
            timecap,
            memorycap,
        }),
    )
}

// Document 01's system A, with this many engines.
pub fn system_a(engines: usize) -> System {
    with_type(with_type(platform_of(engines, 0, 10, 8), 4, 3, 3), 3, 2, 2)
}

// Document 01's system B, with this many engines and this memory rule.
pub fn system_b(engines: usize, rule: u8) -> System {
    with_type(platform_of(engines, rule, 10, 8), 2, 5, 4)
}

// One type: m, rule, one capacity for time and memory, one cost for both, n.
pub fn single(engines: usize, rule: u8, capacity: u32, cost: u32, ceiling: u16) -> System {
    with_type(
        platform_of(engines, rule, capacity, capacity),
        cost,
        cost,
        ceiling,
    )
}

// Six types of these ceilings, that cost nothing.
pub fn six_of(engines: usize, ceilings: [u16; TYPE_LIMIT]) -> System {
    let mut y = platform_of(engines, 0, 0, 0);
    for ceiling in ceilings {
        y = with_type(y, 0, 0, ceiling);
    }
    y
}

// Six types, 1,024 columns, 16 engines: two of type 1 take most of an engine's time, and the others go between them.
pub fn system_full(rule: u8) -> System {
    let tasks: [(u32, u32, u16); TYPE_LIMIT] = [
        (411111, 98765, 31),
        (432109, 87654, 1),
        (150001, 345678, 1),
        (123456, 456789, 1),
        (76543, 321098, 1),
        (65432, 210987, 1),
    ];
    let mut y = platform_of(16, rule, 987654, 765432);
    for (time, memory, ceiling) in tasks {
        y = with_type(y, time, memory, ceiling);
    }
    y
}

// The same with a d for each type, by which types 5 and 6 no longer share an engine.
pub fn system_stacked(rule: u8) -> System {
    let mut y = system_full(rule);
    for (task, data) in y
        .types
        .iter_mut()
        .zip([12345u32, 23456, 34567, 45678, 56789, 67890])
    {
        task.data = data;
    }
    y
}

// The same with a q for each type too, that of type 1 just met: no file of one kind of engine without C and T that opens is longer.
pub fn system_longest(rule: u8) -> System {
    let mut y = system_stacked(rule);
    for (task, q) in y.types.iter_mut().zip([2u16, 1, 65535, 256, 1, 513]) {
        task.most = Some(q);
    }
    y
}

// The same with 8 engines, and 8 of a second kind: no file without C and T that opens is longer.
pub fn system_mixed(rule: u8) -> System {
    let costs: [(u32, u32); TYPE_LIMIT] = [
        (299999, 87654),
        (1, 65536),
        (0, 0),
        (1000000, 256),
        (77777, 1000000),
        (16777, 513),
    ];
    let mut y = system_longest(rule);
    for (task, (time, memory)) in y.types.iter_mut().zip(costs) {
        task.there = Some(Costs { time, memory });
    }
    y.engines = 8;
    with_second(y, 8, 900000, 654321)
}

// The system with a C and T for each of the six types of `system_full`, whose U is 987,654: as much of T as u is of U, or a little less.
fn with_paces(mut y: System) -> System {
    let paces: [(u32, u32); TYPE_LIMIT] = [
        (27278, 65535), // of 411,111: 27,279 is too much
        (1, 3), // of 432,109: 1 of 2 is too much
        (1, 7), // of 150,001
        (256, 65280), // of 123,456
        (77, 1000), // of 76,543: 78 is too much
        (2, 65535), // of 65,432
    ];
    for (task, (run, period)) in y.types.iter_mut().zip(paces) {
        task.pace = Some(Cycle { run, period });
    }
    y
}

// The longest file of one kind with a C and T for each type too: no file of one kind that opens is longer.
pub fn system_paced(rule: u8) -> System {
    with_paces(system_longest(rule))
}

// The longest file of two kinds with them: no file that opens is longer.
pub fn system_mixed_paced(rule: u8) -> System {
    with_paces(system_mixed(rule))
}

// A type's C and T, 0 where they are not given.
pub fn cycle_of(pace: Option<Cycle>) -> Cycle {
    pace.unwrap_or(Cycle { run: 0, period: 0 })
}

// A type's costs on the second kind, 0 where they are not given.
pub fn costs_of(there: Option<Costs>) -> Costs {
    there.unwrap_or(Costs { time: 0, memory: 0 })
}

// The second kind of engine, of 0 engines where there is none.
pub fn kind_of(second: Option<Kind>) -> Kind {
    second.unwrap_or(Kind {
        number: 0,
        timecap: 0,
        memorycap: 0,
    })
}
