// Request 2026-13: a card with two kinds of engine as two systems of one kind each.
ghost use Rattle.std.specs.Prelude.{◌≡◌, map};
ghost use Rattle.system.specs.Card.{task_here, task_there, first_of, second_of};

use system::{Costs, Kind, System, TaskType};

// A type as the engines of the first kind see it, without C and T: only a card of one kind has runs (request 2026-14).
fn task_here(t: TaskType) -> TaskType
    ensures { result ≡ task_here t }
{
    TaskType {
        pace: None,
        there: None,
        ..t
    }
}

// A type as the engines of the second kind see it: with its u and s there, 0 where they are not given.
fn task_there(t: TaskType) -> TaskType
    ensures { result ≡ task_there t }
{
    let costs = t.there.unwrap_or(Costs { time: 0, memory: 0 });
    TaskType {
        time: costs.time,
        memory: costs.memory,
        ..task_here(t)
    }
}

// The engines of the first kind, as a system of their own.
pub fn first_kind(y: System) -> System
    ensures { result ≡ first_of y }
{
    System {
        types: y.types.map(task_here),
        second: None,
        ..y
    }
}

// The engines of the second kind k, as a system of their own.
pub fn second_kind(y: System, k: Kind) -> System
    ensures { result ≡ second_of y k }
{
    System {
        engines: k.number,
        timecap: k.timecap,
        memorycap: k.memorycap,
        types: y.types.map(task_there),
        second: None,
        ..y
    }
}
