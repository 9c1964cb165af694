// Which systems documents 01 and 02 let the writer write, decided apart from it.
ghost use Rattle.std.specs.Prelude.{◌≤◌};

use system::{Kind, System, TYPE_LIMIT, TaskType};
use trial::systems::product;

// The types that a system has: its first k, all six where k is greater.
pub fn types_of(y: &System) -> &[TaskType] {
    &y.types[..y.typecount.min(TYPE_LIMIT)]
}

// U or S, or u or s, is over the limit.
fn over(time: u32, memory: u32) -> bool {
    (1000000 < time) | (1000000 < memory)
}

// u, s or d of a type is, or its u or s on a second kind.
fn oversized_type(t: &TaskType) -> bool {
    over(t.time, t.memory) | (1000000 < t.data) | t.there.is_some_and(|c| over(c.time, c.memory))
}

// U, S, or u, s or d of one of the types, or a number of a second kind.
fn oversized(y: &System) -> bool {
    over(y.timecap, y.memorycap)
        | y.second.is_some_and(|k| over(k.timecap, k.memorycap))
        | types_of(y).iter().any(oversized_type)
}

// q of one of the types is 0.
fn without_places(y: &System) -> bool {
    types_of(y).iter().any(|t| t.most == Some(0))
}

// C and T of a type, where they are given: out of their bounds, on engines without time, or more of T than u is of U.
fn out_of_pace(timecap: u32, t: &TaskType) -> bool {
    let Some(c) = t.pace else {
        return false;
    };
    let share = product(t.time, c.period);
    (c.run == 0)
        | (c.period == 0)
        | (65535 < c.run)
        | (65535 < c.period)
        | (c.period < c.run)
        | (timecap == 0)
        | (share < product(timecap, c.run))
}

// C and T of one of the types.
fn some_out_of_pace(y: &System) -> bool {
    types_of(y).iter().any(|t| out_of_pace(y.timecap, t))
}

// One of the types has costs on a second kind where there is none, or has none where there is one.
fn some_unpaired(y: &System) -> bool {
    types_of(y)
        .iter()
        .any(|t| t.there.is_some() != y.second.is_some())
}

// There are no engines of a second kind, where there is one, or more than 16 in all.
fn miscounted(engines: usize, k: Kind) -> bool {
    (k.number < 1) | (16 < k.number) | (16 < engines.wrapping_add(k.number))
}

// The columns are over 4,096: dividing by each n + 1 in turn leaves nothing of it.
fn passes_columns(y: &System) -> bool {
    types_of(y)
        .iter()
        .fold(4096, |left, t| left / (t.ceiling as usize + 1))
        == 0
}

// The bytes that a type has in the file: 13, and those of its d, its q, its C and T, and its costs there.
fn bytes_of(t: &TaskType) -> usize
    ensures { result ≤ 47 }
{
    let data = if t.data == 0 { 0 } else { 7 };
    let most = if t.most.is_some() { 5 } else { 0 };
    let pace = if t.pace.is_some() { 11 } else { 0 };
    let there = if t.there.is_some() { 11 } else { 0 };
    13 + data + most + pace + there
}

// The bytes of the file: those of the platform, of any second kind, and of the types.
fn size_of(y: &System) -> usize {
    let platform = if y.second.is_some() { 25 } else { 13 };
    types_of(y)
        .iter()
        .fold(platform, |n, t| n.wrapping_add(bytes_of(t)))
}

// The number that a system is refused with, for a buffer of `room` bytes; none where it is written. The first that holds is told.
pub fn refusal_of(y: &System, room: usize) -> Option<u8> {
    let missed = (y.engines < 1)
        | (16 < y.engines)
        | y.second.is_some_and(|k| miscounted(y.engines, k));
    [
        (6 < y.typecount, 7),
        (y.typecount == 0, 9),
        (some_unpaired(y), 41),
        (missed, 5),
        (1 < y.rule, 6),
        (oversized(y), 8),
        (without_places(y), 31),
        (some_out_of_pace(y), 43),
        (passes_columns(y), 10),
        (room < size_of(y), 30),
    ]
    .into_iter()
    .find(|(holds, _)| *holds)
    .map(|(_, number)| number)
}
