// Plans of one file over parts that held other things before, and into lists of other lengths. Which of several right plans is given is free, but neither
// chooses it.
use crate::lent::{LONG, Lent, MOST, planned};
use trial::lent::Parts;
use trial::say;
use trial_records::Listed;

// A plan into so many records, over parts whose entries all held one number.
fn over_one(file: &[u8], n: Lent, records: usize, held: u16) -> Listed<MOST> {
    let mut parts: Parts<LONG> = Parts::of(|_| held, |_| held);
    parts.lent(n.entries, |rows, predecessors| {
        planned(file, rows, predecessors, records)
    })
}

// A plan over parts that a plan of the same file left, each lent in the other's place: entries that are rows and columns.
fn planned_again(file: &[u8], n: Lent) -> Listed<MOST> {
    let mut parts: Parts<LONG> = Parts::of(|_| 0, |_| 0);
    parts.lent(n.entries, |rows, predecessors| {
        planned(file, rows, predecessors, n.records)
    });
    let rows = parts.predecessors;
    let predecessors = parts.rows;
    let mut swapped = Parts { rows, predecessors };
    swapped.lent(n.entries, |rows, predecessors| {
        planned(file, rows, predecessors, n.records)
    })
}

// Whether every other plan of a file is the one given, with the records past the used engines.
pub fn say_same(rt: &HostRuntime, file: &[u8], n: Lent, given: &Listed<MOST>) {
    let same = *given == over_one(file, n, n.records, 1)
        && *given == over_one(file, n, 16, 0)
        && *given == over_one(file, n, 17, 65535)
        && *given == planned_again(file, n);
    say::say(rt, if same { b" same" } else { b" OTHER PLAN" });
}
