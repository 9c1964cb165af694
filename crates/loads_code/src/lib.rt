// Time, memory and fit of a load, and the column that stands for it.
#![tactic(auto)]

ghost use Rattle.std.specs.Prelude.{◌≡◌, ◌+◌, ◌-◌, ◌*◌, ◌%◌, ◌^◌, ◌≤◌, ◌<◌, true, get_or};
ghost use Rattle.system.specs.Values.{ceilings_of};
ghost use Rattle.system.specs.Limits.{type_limit, columns, column_limit};
ghost use Rattle.loads.specs.Load.{memory_at, sums_of, apart_at, apart, fits_engine, holds_none, less, one_more, one_less, engine_with, idle_engine};
ghost use Rattle.loads.specs.Column.{column_of, load_of};

use loads::{EngineLoad, Sums};
use std::array;
use system::{System, TYPE_LIMIT, TaskType};

// What `count` instances cost at `each`. Six such products are far below 2^64.
fn cost(count: u16, each: u32) -> u64
    ensures { (result ≡ count * each) × (result ≤ 2 ^ 48) }
{
    (count as u64) * (each as u64)
}

// What `count` instances of one type take of an engine's memory.
fn memory_at(rule: u8, task: TaskType, count: u16) -> u64
    ensures { (result ≡ memory_at rule task count) × (result ≤ 2 ^ 49) }
{
    if count == 0 {
        return 0;
    }
    if rule == 0 {
        return (count as u64) * (task.memory as u64 + task.data as u64);
    }
    task.memory as u64 + cost(count, task.data)
}

// Both sums of a load, over its types.
pub fn sums_of(y: System, counts: [u16; TYPE_LIMIT]) -> Sums
    ensures { result ≡ sums_of y counts }
{
    let mut time: u64 = 0;
    let mut memory: u64 = 0;
    for (task, count) in y.types.iter().zip(counts.iter()) {
        time += cost(*count, task.time);
        memory += memory_at(y.rule, *task, *count);
    }
    Sums { time, memory }
}

// Whether `count` instances of one type may be on one engine, by the type's q.
fn apart_at(most: Option<u16>, count: u16) -> bool
    ensures { result ≡ apart_at most count }
{
    most.is_none_or(|q| count <= q)
}

// Whether every count of a load keeps the q of its type.
fn apart(types: [TaskType; TYPE_LIMIT], counts: [u16; TYPE_LIMIT]) -> bool
    ensures { result ≡ apart types counts }
{
    types
        .iter()
        .zip(counts.iter())
        .all(|(task, count)| apart_at(task.most, *count))
}

// Whether a load fits an engine of the system. Inlined: a call that is not copies the system once more, and the fill of a table asks it for most columns.
#[inline]
pub fn fits_engine(y: System, counts: [u16; TYPE_LIMIT]) -> bool
    ensures { result ≡ fits_engine y counts }
{
    let sums = sums_of(y, counts);
    (sums.time <= y.timecap as u64) & (sums.memory <= y.memorycap as u64) & apart(y.types, counts)
}

// The engine that holds a load, its sums computed anew.
pub fn engine_with(y: System, counts: [u16; TYPE_LIMIT]) -> EngineLoad
    requires { fits_engine y counts ≡ true }
    ensures { result ≡ engine_with y counts }
{
    let sums = sums_of(y, counts);
    EngineLoad {
        time: sums.time as u32,
        memory: sums.memory as u32,
        counts,
    }
}

// The engine that holds nothing.
pub fn idle_engine() -> EngineLoad
    ensures { result ≡ idle_engine }
{
    EngineLoad {
        time: 0,
        memory: 0,
        counts: [0; TYPE_LIMIT],
    }
}

// Whether a load has no instance at all.
pub fn holds_none(counts: [u16; TYPE_LIMIT]) -> bool
    ensures { result ≡ holds_none counts }
{
    counts.iter().all(|count| *count == 0)
}

// The load x less the load y: nothing is left of a type of which there are fewer.
pub fn minus(x: [u16; TYPE_LIMIT], y: [u16; TYPE_LIMIT]) -> [u16; TYPE_LIMIT]
    ensures { result ≡ less x y }
{
    array::from_fn(|i| x[i].saturating_sub(y[i]))
}

// The load with one instance more of the type at index i. 65535 is the largest number of a u16: a count there has no next one.
pub fn one_more(counts: [u16; TYPE_LIMIT], i: usize) -> [u16; TYPE_LIMIT]
    requires { (i < type_limit) × (get_or counts i 0 < 65535) }
    ensures { result ≡ one_more i counts }
{
    let mut next = counts;
    next[i] += 1;
    next
}

// The load with one instance less of the type at index i: as it is, where there is none.
pub fn one_less(counts: [u16; TYPE_LIMIT], i: usize) -> [u16; TYPE_LIMIT]
    requires { i < type_limit }
    ensures { result ≡ one_less i counts }
{
    let mut next = counts;
    next[i] = counts[i].saturating_sub(1);
    next
}

// n + 1, by which a column counts a type of ceiling n.
fn base(ceiling: u16) -> usize
    ensures { result ≡ ceiling + 1 }
{
    ceiling as usize + 1
}

// A count as a number of columns. A function for its bound, which a cast in a sum does not state; crates above have their own, and none is public for it.
fn wide(count: u16) -> usize
    ensures { (result ≡ count) × (result < 2 ^ 16) }
{
    count as usize
}

// The number of instances of a type of this ceiling that a column has at its lowest place.
fn digit(column: usize, ceiling: u16) -> u16
    ensures { result ≡ column % (ceiling + 1) }
{
    (column % base(ceiling)) as u16
}

// The column that stands for a load. That the columns keep their limit stands in four contracts, here and in the crates above: a caller may hand in any System,
// so that no invariant of it can say it.
pub fn column_of(y: System, counts: [u16; TYPE_LIMIT]) -> usize
    requires { columns y ≤ column_limit }
    ensures { result ≡ column_of (ceilings_of y) counts }
{
    let mut stride: usize = 1;
    let mut column: usize = 0;
    for (task, count) in y.types.iter().zip(counts.iter()) {
        column += wide(*count) * stride;
        stride *= base(task.ceiling);
    }
    column
}

// The load that a column stands for.
pub fn load_of(y: System, column: usize) -> [u16; TYPE_LIMIT]
    ensures { result ≡ load_of (ceilings_of y) column }
{
    let mut counts: [u16; TYPE_LIMIT] = [0; TYPE_LIMIT];
    let mut rest = column;
    for (i, task) in y.types.iter().enumerate() {
        counts[i] = digit(rest, task.ceiling);
        rest /= base(task.ceiling);
    }
    counts
}
