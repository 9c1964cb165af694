// A plan, by value and into a list, and filling alone, over two parts that are longer than they need to be, just long enough, and of which one is an entry
// too short, or both: whether each is what the brute search says. The system, what is wanted of it and its columns go along one by one: most functions take
// but one or two of them.
use brute::recovery::Recovery;
use brute::{recovery, search};
use loads::EngineLoad;
use planner::{EngineRecord, Plan};
use planner_code::{plan_list, plan_of};
use system::{ENGINE_LIMIT, Refusal, System};
use table_code::fill_table;
use trial::lent::{Lengths, Parts};
use trial::{files, tables};
use trial_records::OLD;

// The entries of a part.
pub const LONG: usize = 512;

// The parts before they are lent.
fn dirty_parts() -> Parts<LONG> {
    let dirty = tables::dirty_table();
    let rows = dirty.rows;
    let predecessors = dirty.predecessors;
    Parts { rows, predecessors }
}

// How many entries of each part are lent.
fn lengths(rows: usize, predecessors: usize) -> Lengths {
    Lengths { rows, predecessors }
}

// As many of either.
pub fn both(entries: usize) -> Lengths {
    lengths(entries, entries)
}

// What a call on a system's file answers over two dirty parts of which so many entries are lent, and what it leaves there.
fn called<R, F: FnOnce(&[u8], &mut [u16], &mut [u16]) -> R>(
    y: System,
    n: Lengths,
    call: F,
) -> (R, Parts<LONG>)
    requires { F.IsAlwaysCallable call }
{
    let f = files::file_of(y);
    let file = f.as_slice();
    let mut parts = dirty_parts();
    let answered = parts.lent(n, |rows, predecessors| call(file, rows, predecessors));
    (answered, parts)
}

pub fn planned(y: System, n: Lengths) -> (Plan, Parts<LONG>) {
    called(y, n, plan_of)
}

// Both parts are filled as the brute search says, for all engines of the system.
fn right_cells(y: System, parts: &Parts<LONG>) -> bool {
    let none = y.engines.wrapping_add(1);
    recovery::right_parts(y, none, parts.rows, parts.predecessors)
}

// The engine's load fits, and its stored time and memory are the sums.
fn true_load(y: System, l: EngineLoad) -> bool {
    let load = search::digits_of(l.counts);
    l == recovery::engine_of(y, load) && search::fits_one(y, load)
}

// All n(t) instances of each type are placed.
fn all_placed(y: System, loads: [EngineLoad; ENGINE_LIMIT]) -> bool {
    recovery::instances(loads) == search::digits_of(recovery::ceilings_of(y))
}

// The plan is the recovery, and a good assignment of all instances; engines past the answer are idle.
fn right_plan(y: System, p: &Plan, want: &Recovery) -> bool {
    p.answer == Ok(Some(want.used))
        && p.used == want.used
        && p.typecount == y.typecount
        && p.loads == want.loads
        && p.loads.iter().all(|l| true_load(y, *l))
        && p.loads.iter().skip(p.used).all(|l| *l == recovery::idle())
        && all_placed(y, p.loads)
}

// The plan is refused with this number, and hands out nothing.
fn refused_with(p: &Plan, number: u8) -> bool {
    p.answer == Err(Refusal::Input(number))
        && p.used == 0
        && p.typecount == 0
        && p.loads == [recovery::idle(); ENGINE_LIMIT]
}

// The plan over parts that are long enough. With `cells` every cell is compared.
fn right_over(y: System, want: Option<Recovery>, n: Lengths, columns: usize, cells: bool) -> bool {
    let (p, parts) = planned(y, n);
    let right = match want {
        Some(recovery) => right_plan(y, &p, &recovery),
        None => refused_with(&p, 12),
    };
    right && parts.kept_from(&dirty_parts(), columns) && (!cells || right_cells(y, &parts))
}

// The plan over parts that are longer than they need to be; with `cells`, over ones that are just long enough too, and of which either is longer.
pub fn right_long(y: System, want: Option<Recovery>, columns: usize, cells: bool) -> bool {
    let long = right_over(y, want, both(LONG), columns, cells);
    if !cells {
        return long;
    }
    long && right_over(y, want, both(columns), columns, true)
        && right_over(y, want, lengths(LONG, columns), columns, true)
        && right_over(y, want, lengths(columns, LONG), columns, true)
}

// The plan over parts of which one is too short, or both.
fn refused_over(y: System, n: Lengths) -> bool {
    let (p, parts) = planned(y, n);
    refused_with(&p, 11) && parts == dirty_parts()
}

// The plan over parts of which either has one entry too few; with `cells`, whatever the other has.
pub fn right_short(y: System, columns: usize, cells: bool) -> bool {
    let Some(less) = columns.checked_sub(1) else {
        return false;
    };
    let either = refused_over(y, lengths(less, columns)) && refused_over(y, lengths(columns, less));
    if !cells {
        return either;
    }
    either
        && refused_over(y, both(less))
        && refused_over(y, lengths(less, LONG))
        && refused_over(y, lengths(LONG, less))
        && refused_over(y, lengths(0, LONG))
        && refused_over(y, lengths(LONG, 0))
}

// A list after the plan: the first records are those of the used engines, the later ones as they were.
fn wanted_list(want: Option<Recovery>) -> [EngineRecord; ENGINE_LIMIT] {
    let mut list = [OLD; ENGINE_LIMIT];
    let Some(recovery) = want else {
        return list;
    };
    for ((number, load), record) in (1..=ENGINE_LIMIT)
        .zip(&recovery.loads)
        .zip(list.iter_mut())
        .take(recovery.used)
    {
        *record = EngineRecord {
            number,
            load: *load,
        };
    }
    list
}

// The plan into a list, over parts that are long enough.
pub fn right_list(y: System, want: Option<Recovery>) -> bool {
    let f = files::file_of(y);
    let file = f.as_slice();
    let list = [OLD; ENGINE_LIMIT];
    let answer = match want {
        Some(recovery) => Ok(Some(recovery.used)),
        None => Err(Refusal::Input(12)),
    };
    let planned = plan_list(file, &mut [9; LONG], &mut [8; LONG], list);
    planned.answer == answer && planned.list == wanted_list(want)
}

// Filling parts that are long enough: a number, and every cell.
fn fills(y: System, n: Lengths, columns: usize) -> bool {
    let (answer, parts) = called(y, n, fill_table);
    matches!(answer, Ok(Some(_)))
        && right_cells(y, &parts)
        && parts.kept_from(&dirty_parts(), columns)
}

// Parts of which one is too short, or both: refused 11, and nothing is changed.
fn keeps(y: System, n: Lengths) -> bool {
    let (answer, parts) = called(y, n, fill_table);
    answer == Err(Refusal::Input(11)) && parts == dirty_parts()
}

pub fn right_fill(y: System, columns: usize) -> bool {
    let less = columns.wrapping_sub(1);
    fills(y, both(columns), columns)
        && fills(y, lengths(LONG, columns), columns)
        && keeps(y, lengths(less, columns))
        && keeps(y, lengths(columns, less))
        && keeps(y, both(less))
        && keeps(y, lengths(less, LONG))
        && keeps(y, lengths(LONG, less))
}
