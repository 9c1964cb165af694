// The one place where the code makes a `System` or a `TaskType`: a later field is added here.
ghost use Rattle.std.specs.Prelude.{◌≡◌, ◌<◌};
ghost use Rattle.system.specs.Limits.{type_limit};
ghost use Rattle.system.specs.Values.{task_of, with_data, with_most, with_pace, with_costs, no_task, blank};
ghost use Rattle.system.specs.Values.{with_platform, with_second, with_type, last_type, with_last, cleared_types, cleared};
ghost use Rattle.system.specs.Inner.{Typed};

use system::{Costs, Cycle, Kind, System, TYPE_LIMIT, TaskType};

// A type of these u, s and n: without their fields, d is 0, no q, C and T are given, and nothing of a second kind.
pub(crate) fn task_of(time: u32, memory: u32, ceiling: u16) -> TaskType
    ensures { result ≡ task_of time memory ceiling }
{
    TaskType {
        time,
        memory,
        ceiling,
        data: 0,
        most: None,
        pace: None,
        there: None,
    }
}

// The type with its d.
pub(crate) fn with_data(d: u32, t: TaskType) -> TaskType
    ensures { result ≡ with_data d t }
{
    TaskType { data: d, ..t }
}

// The type with its q.
pub(crate) fn with_most(q: u16, t: TaskType) -> TaskType
    ensures { result ≡ with_most q t }
{
    TaskType { most: Some(q), ..t }
}

// The type with its C and T.
pub(crate) fn with_pace(run: u32, period: u32, t: TaskType) -> TaskType
    ensures { result ≡ with_pace run period t }
{
    TaskType {
        pace: Some(Cycle { run, period }),
        ..t
    }
}

// The type with its u and s on the second kind.
pub(crate) fn with_costs(time: u32, memory: u32, t: TaskType) -> TaskType
    ensures { result ≡ with_costs time memory t }
{
    TaskType {
        there: Some(Costs { time, memory }),
        ..t
    }
}

// What stands for a type past k.
pub fn no_task() -> TaskType
    ensures { result ≡ no_task }
{
    task_of(0, 0, 0)
}

// The system before any field was read, and the one that a refusal hands out.
pub fn blank_system() -> System
    ensures { result ≡ blank }
{
    System {
        engines: 0,
        rule: 0,
        timecap: 0,
        memorycap: 0,
        typecount: 0,
        types: [no_task(); TYPE_LIMIT],
        second: None,
    }
}

// The system with a platform's m, rule, U and S.
pub(crate) fn with_platform(m: usize, rule: u8, time: u32, memory: u32, y: System) -> System
    ensures { result ≡ with_platform m rule time memory y }
{
    System {
        engines: m,
        rule,
        timecap: time,
        memorycap: memory,
        ..y
    }
}

// The system with a second kind of engine: its number, U and S.
pub(crate) fn with_second(number: usize, time: u32, memory: u32, y: System) -> System
    ensures { result ≡ with_second number time memory y }
{
    System {
        second: Some(Kind {
            number,
            timecap: time,
            memorycap: memory,
        }),
        ..y
    }
}

// The system with one type more, at the next type number.
pub(crate) fn with_type(t: TaskType, y: System) -> System
    requires { y.typecount < type_limit }
    ensures { result ≡ with_type t y }
{
    let mut z = y;
    z.types[y.typecount] = t;
    z.typecount += 1;
    z
}

// The type of the highest number.
pub(crate) fn last_type(y: System) -> TaskType
    requires { Typed y }
    ensures { result ≡ last_type y }
{
    y.types[y.typecount - 1]
}

// The system with another type in its place.
pub(crate) fn with_last(t: TaskType, y: System) -> System
    requires { Typed y }
    ensures { result ≡ with_last t y }
{
    let mut z = y;
    z.types[y.typecount - 1] = t;
    z
}

// Six entries with 0 and nothing given from k on, whatever stood there.
fn cleared_types(k: usize, types: [TaskType; TYPE_LIMIT]) -> [TaskType; TYPE_LIMIT]
    ensures { result ≡ cleared_types k types }
{
    let kept = k.min(TYPE_LIMIT);
    let mut left = [no_task(); TYPE_LIMIT];
    left[..kept].copy_from_slice(&types[..kept]);
    left
}

// The system with 0 and nothing given past k, whatever stood there.
pub fn cleared(y: System) -> System
    ensures { result ≡ cleared y }
{
    System {
        types: cleared_types(y.typecount, y.types),
        ..y
    }
}
