// Whether records are a good plan of a card, of one kind of engine or two: document 01's words and requests 2026-03, 2026-04 and 2026-13, with sums over
// single instances.
use loads::Sums;
use planner::EngineRecord;
use system::{Costs, System, TYPE_LIMIT, TaskType};

// What is wrong with the records of a plan. Of several faults the first record's is told, and of one record's the first in this order.
#[derive(Clone, Copy, PartialEq, Eq)]
pub enum Fault {
    // A record's number does not rise, or is no engine's.
    Number,
    // A record holds no instance.
    Nothing,
    // A record's time and memory are not those of its counts.
    Sums,
    // A record does not fit its engine.
    Room,
    // Not all instances are in the records.
    Missing,
}

// The engines of both kinds.
pub fn engines_in(y: System) -> usize {
    y.engines
        .wrapping_add(y.second.map_or(0, |kind| kind.number))
}

// U and S of an engine, by its number.
fn room_on(y: System, e: usize) -> Sums {
    let (time, memory) = match y.second {
        Some(kind) if y.engines < e => (kind.timecap, kind.memorycap),
        None if y.engines < e => (0, 0),
        _ => (y.timecap, y.memorycap),
    };
    Sums {
        time: u64::from(time),
        memory: u64::from(memory),
    }
}

// u and s of a type on an engine, by its number.
fn costs_on(y: System, e: usize, task: TaskType) -> Costs {
    if e <= y.engines {
        return Costs {
            time: task.time,
            memory: task.memory,
        };
    }
    task.there.unwrap_or(Costs { time: 0, memory: 0 })
}

// A number once for each instance.
fn times(each: u32, count: u16) -> u64 {
    let mut sum = 0u64;
    for _ in 0..count {
        sum = sum.wrapping_add(u64::from(each));
    }
    sum
}

// What so many instances of a type take of an engine: each its time, its data memory, and under rule 0 its own code; under rule 1 they share one.
fn taken(y: System, e: usize, task: TaskType, count: u16) -> Sums {
    let c = costs_on(y, e, task);
    let codes = if y.rule == 0 { count } else { count.min(1) };
    Sums {
        time: times(c.time, count),
        memory: times(c.memory, codes).wrapping_add(times(task.data, count)),
    }
}

// What six counts take of an engine.
fn sums_on(y: System, e: usize, counts: [u16; TYPE_LIMIT]) -> Sums {
    let mut sums = Sums { time: 0, memory: 0 };
    for (task, count) in y.types.iter().zip(&counts) {
        let more = taken(y, e, *task, *count);
        sums.time = sums.time.wrapping_add(more.time);
        sums.memory = sums.memory.wrapping_add(more.memory);
    }
    sums
}

// No count is over its q.
fn apart(y: System, counts: [u16; TYPE_LIMIT]) -> bool {
    y.types.iter().zip(&counts).all(|(task, count)| task.most.is_none_or(|most| *count <= most))
}

// Six counts fit an engine, by its number.
pub fn fits_on(y: System, e: usize, counts: [u16; TYPE_LIMIT]) -> bool {
    let sums = sums_on(y, e, counts);
    let room = room_on(y, e);
    sums.time <= room.time && sums.memory <= room.memory && apart(y, counts)
}

// A record after one with this number, 0 before the first: numbers start at 1, so that one comparison is right for all.
fn judged_record(y: System, last: usize, r: EngineRecord) -> Result<(), Fault> {
    let counts = r.load.counts;
    if r.number <= last || engines_in(y) < r.number {
        return Err(Fault::Number);
    }
    if counts == [0; TYPE_LIMIT] {
        return Err(Fault::Nothing);
    }
    let stored = Sums {
        time: u64::from(r.load.time),
        memory: u64::from(r.load.memory),
    };
    if sums_on(y, r.number, counts) != stored {
        return Err(Fault::Sums);
    }
    if !fits_on(y, r.number, counts) {
        return Err(Fault::Room);
    }
    Ok(())
}

// Counts with those of a load.
fn add_counts(sums: &mut [usize; TYPE_LIMIT], counts: [u16; TYPE_LIMIT]) {
    for (sum, count) in sums.iter_mut().zip(&counts) {
        *sum = sum.wrapping_add(usize::from(*count));
    }
}

// The records of a plan: every instance of each type is in them.
pub fn judged(y: System, records: &[EngineRecord]) -> Result<(), Fault> {
    let mut last = 0;
    let mut held = [0usize; TYPE_LIMIT];
    for r in records {
        judged_record(y, last, *r)?;
        last = r.number;
        add_counts(&mut held, r.load.counts);
    }
    if held != y.types.map(|task| usize::from(task.ceiling)) {
        return Err(Fault::Missing);
    }
    Ok(())
}

// How many of the records are of the second kind.
pub fn second_in(y: System, records: &[EngineRecord]) -> usize {
    records.iter().filter(|r| y.engines < r.number).count()
}
