// The two parts that are lent, dirty before, of which first entries are lent, and what was left in them.
use trial::lent::{Lengths, Parts};
use trial_records::{Listed, OLD, dirty_parts, plan_front};

// The entries of a part: more than any system needs.
pub const LONG: usize = 4200;

// The most records that are lent: one more than any system has engines.
pub const MOST: usize = 17;

// How many entries of each part are lent, and how many records of the list.
#[derive(Clone, Copy)]
pub struct Lent {
    pub entries: Lengths,
    pub records: usize,
}

// What a call answered, and what it left in both parts.
#[derive(Clone, Copy)]
pub struct Left<R> {
    pub answered: R,
    pub parts: Parts<LONG>,
}

impl<R> Left<R> {
    // The entries of both parts from `start` on are as they were.
    pub fn kept_from(&self, start: usize) -> bool {
        self.parts.kept_from(&dirty_parts(), start)
    }
}

// A call over the first entries of dirty parts.
pub fn over_dirty<R, F: FnOnce(&mut [u16], &mut [u16]) -> R>(n: Lengths, call: F) -> Left<R>
    requires { F.IsAlwaysCallable call }
{
    let mut parts = dirty_parts();
    let answered = parts.lent(n, call);
    Left { answered, parts }
}

// A plan into the first records of a list; accepted, with nothing done, where the list is too short.
pub fn planned(
    file: &[u8],
    rows: &mut [u16],
    predecessors: &mut [u16],
    records: usize,
) -> Listed<MOST> {
    plan_front(file, rows, predecessors, records).unwrap_or(Listed {
        answer: Ok(None),
        list: [OLD; MOST],
    })
}

// The same over dirty parts.
pub fn planned_over(file: &[u8], n: Lent) -> Left<Listed<MOST>> {
    over_dirty(n.entries, |rows, predecessors| {
        planned(file, rows, predecessors, n.records)
    })
}
