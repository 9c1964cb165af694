// Document 01's recovery, with "row i says yes" decided by trying every assignment to i engines.
use crate::search;
use loads::EngineLoad;
use std::array;
use system::{COLUMN_LIMIT, ENGINE_LIMIT, System, TYPE_LIMIT};

// How many engines the recovery uses, and what each holds: all sixteen places, as a plan hands them out, so that they are compared whole.
#[derive(Clone, Copy)]
pub struct Recovery {
    pub used: usize,
    pub loads: [EngineLoad; ENGINE_LIMIT],
}

// The load a with the load b, and the load a less the load b.
fn plus(mut a: [usize; 8], b: [usize; 8]) -> [usize; 8] {
    for (sum, count) in a.iter_mut().zip(b) {
        *sum = sum.wrapping_add(count);
    }
    a
}

fn less(mut a: [usize; 8], b: [usize; 8]) -> [usize; 8] {
    for (count, gone) in a.iter_mut().zip(b) {
        *count = count.saturating_sub(gone);
    }
    a
}

// One more than each count: the bases in which the loads with no count above it are counted through, lowest column first.
pub fn bases_of(load: [usize; 8]) -> [usize; 8] {
    load.map(|count| count.wrapping_add(1))
}

// The load of the lowest column that this many rows place, and that leaves of the load what fits one engine.
fn predecessor(y: System, load: [usize; 8], rows: usize) -> [usize; 8] {
    let bases = bases_of(load);
    let mut digits = [0; 8];
    for _ in 0..COLUMN_LIMIT {
        if search::fits_one(y, less(load, digits)) && search::fewest_on(y, digits, rows).is_some() {
            return digits;
        }
        let Some(next) = search::counted_up(digits, bases) else {
            return load;
        };
        digits = next;
    }
    load
}

// n(1) to n(6).
pub fn ceilings_of(y: System) -> [u16; TYPE_LIMIT] {
    y.types.map(|task| task.ceiling)
}

// The column of a load within the ceilings: how many loads are counted through before it. All of them, where it is none of them.
pub fn column_of(y: System, load: [usize; 8]) -> usize {
    let bases = bases_of(search::digits_of(ceilings_of(y)));
    let mut digits = [0; 8];
    for column in 0..COLUMN_LIMIT {
        if digits == load {
            return column;
        }
        let Some(next) = search::counted_up(digits, bases) else {
            return column + 1;
        };
        digits = next;
    }
    COLUMN_LIMIT
}

// The columns of a system, counted: no load is 9 of a seventh type.
pub fn columns_of(y: System) -> usize {
    column_of(y, [9; 8])
}

// What document 01's row holds at the column of a load: 65,535 where no assignment to that many engines is good, as the document has it, and no Option.
pub fn cell_of(y: System, row: usize, load: [usize; 8]) -> usize {
    if search::fewest_on(y, load, row).is_none() {
        return 65535;
    }
    if row == 0 {
        return 0;
    }
    column_of(y, predecessor(y, load, row - 1))
}

// What the two parts hold at the column of a load, in the numbers that stand there.
#[derive(Clone, Copy)]
pub struct Entry {
    pub row: usize,
    pub predecessor: usize,
}

// The entry of a load (request 2026-10): the lowest row that says yes and document 01's cell there, `none` and 65,535 where no row does, and 65,535 for
// the column of nothing.
pub fn entry_of(y: System, none: usize, load: [usize; 8]) -> Entry {
    match search::fewest_on(y, load, y.engines) {
        Some(row) if row != 0 => Entry {
            row,
            predecessor: cell_of(y, row, load),
        },
        lowest => Entry {
            row: lowest.unwrap_or(none),
            predecessor: 65535,
        },
    }
}

// Both parts hold at every column what the brute search says. The rows are those of the system's engines, and a column that they place not at all holds
// `none` in the row part: one more than the engines of the platform, of which some may be out of service.
pub fn right_parts(y: System, none: usize, rows: [u16; 512], predecessors: [u16; 512]) -> bool {
    let bases = bases_of(search::digits_of(ceilings_of(y)));
    let mut load = [0; 8];
    let mut right = true;
    for (row, predecessor) in rows.iter().zip(&predecessors) {
        let e = entry_of(y, none, load);
        right = right & (usize::from(*row) == e.row) & (usize::from(*predecessor) == e.predecessor);
        let Some(next) = search::counted_up(load, bases) else {
            return right;
        };
        load = next;
    }
    right
}

// The instances of each type on all engines, as a load.
pub fn instances(loads: [EngineLoad; ENGINE_LIMIT]) -> [usize; 8] {
    loads.iter().fold(
        [0; 8],
        |sum, load| plus(sum, search::digits_of(load.counts)),
    )
}

// A load as six counts, of which none is above 65,535.
pub fn counts_of(load: [usize; 8]) -> [u16; TYPE_LIMIT] {
    array::from_fn(|t| u16::try_from(load[t]).unwrap_or(u16::MAX))
}

// An engine that holds this load, with its sums.
pub fn engine_of(y: System, load: [usize; 8]) -> EngineLoad {
    let s = search::sums_of(y, load);
    EngineLoad {
        time: u32::try_from(s.time).unwrap_or(u32::MAX),
        memory: u32::try_from(s.memory).unwrap_or(u32::MAX),
        counts: counts_of(load),
    }
}

pub fn idle() -> EngineLoad {
    EngineLoad {
        time: 0,
        memory: 0,
        counts: [0; TYPE_LIMIT],
    }
}

// From the lowest row that says yes down to row 1: its engine gets the load less that of the lowest column before it. None where no row says yes.
pub fn recovered(y: System, counts: [u16; TYPE_LIMIT]) -> Option<Recovery> {
    let used = search::fewest(y, counts)?;
    let mut load = search::digits_of(counts);
    let mut loads = [idle(); ENGINE_LIMIT];
    for row in (0..used.min(ENGINE_LIMIT)).rev() {
        let before = predecessor(y, load, row);
        loads[row] = engine_of(y, less(load, before));
        load = before;
    }
    Some(Recovery { used, loads })
}
