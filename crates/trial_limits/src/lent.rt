// Two parts of 5,100 entries each to lend, all the same before, and a line for what they hold after.
use brute::recovery;
use trial::lent::Parts;
use trial::{files, say};
use trial_records::say_kept;

// The entries of the longest part: more than any system needs.
pub const LONG: usize = 5100;

// Both parts before they are lent.
pub const OLD: Parts<LONG> = Parts {
    rows: [7; LONG],
    predecessors: [7; LONG],
};

// The entry before this one, 0 where there is none.
fn entry_before(part: &[u16], end: usize) -> usize {
    part.get(end.wrapping_sub(1))
        .map_or(0, |entry| usize::from(*entry))
}

// A line for both parts: what they hold at the last column of a file's system, and whether the entries past it, or all of them, are as they were.
pub fn say_table(rt: &HostRuntime, parts: &Parts<LONG>, file: &[u8]) {
    let end = recovery::columns_of(files::reading_of(file).system);
    say::say(rt, b"table");
    say::say_also(rt, entry_before(&parts.rows, end));
    say::say_also(rt, entry_before(&parts.predecessors, end));
    say_kept(rt, parts, &OLD, end);
}
