// Document 01's ledger with the marks of request 2026-07, kept from the calls alone: the system, what each engine holds, and whether it is
// marked. Whether a good assignment to the engines in service exists is tried out. Each call takes besides whether its table is long
// enough.
use crate::{recovery, search};
use loads::EngineLoad;
use system::{Answer, ENGINE_LIMIT, Refusal, System};

// Loads and marks stand apart, as a board has them, so that each is compared whole.
#[derive(Clone, Copy)]
pub struct Ledger {
    pub system: System,
    pub loads: [EngineLoad; ENGINE_LIMIT],
    pub marks: [bool; ENGINE_LIMIT],
}

// What a call is answered, and the ledger after it.
#[derive(Clone, Copy)]
pub struct Entry {
    pub answer: Answer,
    pub ledger: Ledger,
}

// What a call does.
#[derive(Clone, Copy, PartialEq, Eq)]
pub enum Kind {
    Admit,
    Seat,
    Retire,
    Repack,
    Withdraw,
    Restore,
}

// A call, with its type and engine number where it has them. Its kind stands apart from them, as calls are counted and printed by it.
#[derive(Clone, Copy)]
pub struct Call {
    pub kind: Kind,
    pub task: usize,
    pub engine: usize,
}

// The ledger of a fresh board, written apart from the code under test.
pub fn fresh(y: System) -> Ledger {
    Ledger {
        system: y,
        loads: [recovery::idle(); ENGINE_LIMIT],
        marks: [false; ENGINE_LIMIT],
    }
}

// An accepted call without a number, and the ledger after it.
fn accepted(ledger: Ledger) -> Entry {
    Entry {
        answer: Ok(None),
        ledger,
    }
}

fn at(load: [usize; 8], i: usize) -> usize {
    load.get(i).copied().unwrap_or(0)
}

// The load with one more, or one less, of the type at index t: the step alone is another, and as a number to add it would say less.
fn one_more(mut load: [usize; 8], t: usize) -> [usize; 8] {
    if let Some(count) = load.get_mut(t) {
        *count = count.wrapping_add(1);
    }
    load
}

fn one_less(mut load: [usize; 8], t: usize) -> [usize; 8] {
    if let Some(count) = load.get_mut(t) {
        *count = count.wrapping_sub(1);
    }
    load
}

// What the engine at index e holds.
fn load_at(l: Ledger, e: usize) -> [usize; 8] {
    l.loads
        .get(e)
        .map_or([0; 8], |engine| search::digits_of(engine.counts))
}

fn with_load(mut l: Ledger, e: usize, load: [usize; 8]) -> Ledger {
    let y = l.system;
    if let Some(engine) = l.loads.get_mut(e) {
        *engine = recovery::engine_of(y, load);
    }
    l
}

// What stands: the sum over the engines.
fn standing(l: Ledger) -> [usize; 8] {
    recovery::instances(l.loads)
}

// Whether the engine at index e is marked.
pub fn marked(l: Ledger, e: usize) -> bool {
    l.marks.get(e).copied().unwrap_or(false)
}

// Whether it is an engine of the system and in service.
fn serves(l: Ledger, e: usize) -> bool {
    (e < l.system.engines) & !marked(l, e)
}

// How many engines are in service.
pub fn serving(l: Ledger) -> usize {
    (0..ENGINE_LIMIT).filter(|e| serves(l, *e)).count()
}

// The system with as many engines as are in service, which is what rows and assignments go by: which engines they are makes no difference
// to them.
pub fn in_service(l: Ledger) -> System {
    System {
        engines: serving(l),
        ..l.system
    }
}

// Each row on its engine: an engine in service gets the next row, a marked one nothing.
fn on_engines(l: Ledger, rows: [EngineLoad; ENGINE_LIMIT]) -> [EngineLoad; ENGINE_LIMIT] {
    let mut loads = [recovery::idle(); ENGINE_LIMIT];
    let mut left = rows.iter();
    for (e, load) in loads.iter_mut().enumerate() {
        if serves(l, e) {
            *load = left.next().copied().unwrap_or(recovery::idle());
        }
    }
    loads
}

// A good assignment of what stands and one more of the type at index t exists on the engines of y, whose types are the ledger's.
fn room_on(y: System, l: Ledger, t: usize) -> bool {
    search::fewest_on(y, one_more(standing(l), t), y.engines).is_some()
}

// One would exist if no engine were marked.
pub fn room_on_all(l: Ledger, task: usize) -> bool {
    room_on(l.system, l, task.wrapping_sub(1))
}

fn known(number: usize, last: usize) -> bool {
    (1 <= number) & (number <= last)
}

// The index of a newcomer's type, or what it is refused with before it is looked for an engine: 13, 11, 21, in this order.
fn newcomer(l: Ledger, task: usize, long: bool) -> Result<usize, Refusal> {
    let y = l.system;
    if !known(task, y.typecount) {
        return Err(Refusal::Input(13));
    }
    if !long {
        return Err(Refusal::Input(11));
    }
    let t = task.wrapping_sub(1);
    let ceilings = search::digits_of(recovery::ceilings_of(y));
    if at(ceilings, t) <= at(standing(l), t) {
        return Err(Refusal::State(21));
    }
    Ok(t)
}

// The index of the first engine in service whose load with the newcomer fits.
fn first_engine(l: Ledger, t: usize) -> Option<usize> {
    (0..ENGINE_LIMIT).find(|e| serves(l, *e)
        && search::fits_one(l.system, one_more(load_at(l, *e), t)))
}

fn admit(l: Ledger, task: usize, long: bool) -> Result<Entry, Refusal> {
    let t = newcomer(l, task, long)?;
    if let Some(e) = first_engine(l, t) {
        return Ok(Entry {
            answer: Ok(Some(e.wrapping_add(1))),
            ledger: with_load(l, e, one_more(load_at(l, e), t)),
        });
    }
    Err(Refusal::State(if room_on(in_service(l), l, t) { 23 } else { 24 }))
}

// The counts become the recovery of a load, where a good assignment of it exists.
fn recovered(l: Ledger, load: [usize; 8]) -> Result<Entry, Refusal> {
    let r = recovery::recovered(in_service(l), recovery::counts_of(load)).ok_or(Refusal::State(
        24,
    ))?;
    Ok(accepted(Ledger {
        loads: on_engines(l, r.loads),
        ..l
    }))
}

fn seat(l: Ledger, task: usize, long: bool) -> Result<Entry, Refusal> {
    let t = newcomer(l, task, long)?;
    recovered(l, one_more(standing(l), t))
}

// The index of an engine of the system, or that there is none.
fn engine_at(l: Ledger, engine: usize) -> Result<usize, Refusal> {
    if !known(engine, l.system.engines) {
        return Err(Refusal::Input(14));
    }
    Ok(engine.wrapping_sub(1))
}

fn retire(l: Ledger, task: usize, engine: usize) -> Result<Entry, Refusal> {
    if !known(task, l.system.typecount) {
        return Err(Refusal::Input(13));
    }
    let e = engine_at(l, engine)?;
    let t = task.wrapping_sub(1);
    let load = load_at(l, e);
    if at(load, t) == 0 {
        return Err(Refusal::State(22));
    }
    Ok(accepted(with_load(l, e, one_less(load, t))))
}

fn repack(l: Ledger, long: bool) -> Result<Entry, Refusal> {
    if !long {
        return Err(Refusal::Input(11));
    }
    recovered(l, standing(l))
}

// The ledger with the engine at index e marked, or not.
fn with_mark(mut l: Ledger, e: usize, mark: bool) -> Ledger {
    if let Some(old) = l.marks.get_mut(e) {
        *old = mark;
    }
    l
}

// Whether the engine at index e holds an instance.
pub fn holds(l: Ledger, e: usize) -> bool {
    load_at(l, e) != [0; 8]
}

fn withdraw(l: Ledger, engine: usize) -> Result<Entry, Refusal> {
    let e = engine_at(l, engine)?;
    if marked(l, e) {
        return Err(Refusal::State(36));
    }
    if holds(l, e) {
        return Err(Refusal::State(35));
    }
    Ok(accepted(with_mark(l, e, true)))
}

fn restore(l: Ledger, engine: usize) -> Result<Entry, Refusal> {
    let e = engine_at(l, engine)?;
    if !marked(l, e) {
        return Err(Refusal::State(36));
    }
    Ok(accepted(with_mark(l, e, false)))
}

// The entry of a call: one that is refused leaves the ledger.
pub fn entered(l: Ledger, c: Call, long: bool) -> Entry {
    let entry = match c.kind {
        Kind::Admit => admit(l, c.task, long),
        Kind::Seat => seat(l, c.task, long),
        Kind::Retire => retire(l, c.task, c.engine),
        Kind::Repack => repack(l, long),
        Kind::Withdraw => withdraw(l, c.engine),
        Kind::Restore => restore(l, c.engine),
    };
    entry.unwrap_or_else(|why| Entry {
        answer: Err(why),
        ledger: l,
    })
}
