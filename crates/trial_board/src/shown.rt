// What a call of a drawn list shows of engines out of service: by these the lists are seen to reach every case.
use brute::ledger;
use brute::ledger::{Call, Kind, Ledger};
use system::{Answer, ENGINE_LIMIT, Refusal};

// The cases, in the order in which they are counted. With some engines out of service: an admit past a marked engine, a seat or repack past one, a 23, a 24
// that would not be one if every engine were in service. With all of them out: an admit that is refused 24, such a seat, a repack, a restore.
#[derive(Clone, Copy, PartialEq, Eq)]
pub enum Showing {
    AdmittedPast,
    MovedPast,
    Unplaced,
    Wanting,
    NoAdmit,
    NoSeat,
    Repacked,
    Restored,
}

// An engine before the one at index `last` is marked.
fn out_before(l: Ledger, last: usize) -> bool {
    (0..last.min(ENGINE_LIMIT)).any(|e| ledger::marked(l, e))
}

// An engine after a marked one holds an instance.
fn stands_past(l: Ledger) -> bool {
    (0..ENGINE_LIMIT).any(|e| ledger::holds(l, e) && out_before(l, e))
}

// With some engines out of service.
fn some_out(before: Ledger, after: Ledger, c: Call, answer: Answer) -> Option<Showing> {
    match answer {
        Ok(Some(e)) => out_before(before, e.wrapping_sub(1)).then_some(Showing::AdmittedPast),
        Ok(None) if (c.kind == Kind::Seat) | (c.kind == Kind::Repack) => {
            stands_past(after).then_some(Showing::MovedPast)
        }
        Err(Refusal::State(23)) => Some(Showing::Unplaced),
        Err(Refusal::State(24)) => {
            ledger::room_on_all(before, c.task).then_some(Showing::Wanting)
        }
        _ => None,
    }
}

// With all of them out.
fn all_out(c: Call, answer: Answer) -> Option<Showing> {
    match answer {
        Err(Refusal::State(24)) if c.kind == Kind::Admit => Some(Showing::NoAdmit),
        Err(Refusal::State(24)) => Some(Showing::NoSeat),
        Ok(None) if c.kind == Kind::Repack => Some(Showing::Repacked),
        Ok(None) => Some(Showing::Restored),
        _ => None,
    }
}

// What a call shows, given the ledger before and after it and its answer.
pub fn shown(before: Ledger, after: Ledger, c: Call, answer: Answer) -> Option<Showing> {
    let number = ledger::serving(before);
    if number == 0 {
        return all_out(c, answer);
    }
    if number < before.system.engines {
        return some_out(before, after, c, answer);
    }
    None
}
