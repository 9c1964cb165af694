// Plans into lists of 0 to 17 records, for 1, 15 and 16 engines: 15 is said exactly where the list is shorter than m, after 31 and 11 and
// before 12, and the records past the last used engine are as they were lent. What is expected was computed apart from the code.
#![tactic(auto)]

use brute::recovery;
use system::System;
use trial::lent::{Lengths, Parts};
use trial::{files, say, systems};
use trial_records::{plan_front, say_kept, say_listed, say_record};

// The most records that are lent: one more than any system has engines.
const MOST: usize = 17;

// The entries of the longest part: as many as any system needs.
const LONG: usize = 4096;

// Both parts before they are lent.
const OLD: Parts<LONG> = Parts {
    rows: [7; LONG],
    predecessors: [7; LONG],
};

// How many entries of each part are lent.
fn lengths(rows: usize, predecessors: usize) -> Lengths {
    Lengths { rows, predecessors }
}

// As many of either.
fn both(entries: usize) -> Lengths {
    lengths(entries, entries)
}

// What entry 0 of each part holds, 0 and 65,535 where they are filled, and whether the entries past the columns, or all of them, are as they were.
fn say_table(rt: &HostRuntime, y: System, parts: &Parts<LONG>) {
    say::say(rt, b", table");
    say::say_also(rt, usize::from(parts.rows[0]));
    say::say_also(rt, usize::from(parts.predecessors[0]));
    say_kept(rt, parts, &OLD, recovery::columns_of(y));
}

// A line for a plan over the first entries of two parts: the records that are lent, the answer, all records after it, and the table.
fn say_list(rt: &HostRuntime, y: System, lent: Lengths, room: usize) {
    let f = files::file_of(y);
    let mut parts = OLD;
    say::say_number(rt, room);
    parts.lent(lent, |rows, predecessors| {
        let planned = plan_front::<MOST>(f.as_slice(), rows, predecessors, room);
        say_listed(rt, planned, |record| say_record(rt, record));
    });
    say_table(rt, y, &parts);
}

// Every length.
fn say_lengths(rt: &HostRuntime, y: System) {
    say::say_system(rt, b"system", y);
    for room in 0..18 {
        say_list(rt, y, both(LONG), room);
    }
}

// Parts that are just long enough for so many columns.
fn say_just(rt: &HostRuntime, y: System, columns: usize, room: usize) {
    say_list(rt, y, both(columns), room);
}

// Parts of which either has an entry less, or both.
fn say_short(rt: &HostRuntime, y: System, less: usize, room: usize) {
    let columns = less.wrapping_add(1);
    say_list(rt, y, lengths(less, columns), room);
    say_list(rt, y, lengths(columns, less), room);
    say_list(rt, y, both(less), room);
    say_list(rt, y, lengths(less, LONG), room);
    say_list(rt, y, lengths(LONG, less), room);
}

// One type of which an engine takes one.
fn one_each(engines: usize, n: u16) -> System {
    systems::single(engines, 0, 10, 10, n)
}

// One type that costs nothing, of which an engine holds at most q.
fn apart(engines: usize, n: u16, q: u16) -> System {
    systems::with_most(systems::single(engines, 0, 0, 0, n), q)
}

// What the file is refused with comes before 11, 15 and 12, and what q leaves no room for is 12.
fn say_apart(rt: &HostRuntime) {
    say_just(rt, apart(16, 17, 0), 0, 0);
    say_short(rt, apart(16, 17, 1), 17, 15);
    say_just(rt, apart(16, 17, 1), 18, 15);
    say_just(rt, apart(16, 17, 1), 18, 16);
    say_just(rt, apart(16, 16, 1), 17, 15);
    say_just(rt, apart(16, 16, 1), 17, 16);
    say_just(rt, apart(16, 17, 2), 18, 16);
    say_just(rt, apart(16, 17, 65535), 18, 16);
}

fn main(rt: HostRuntime) {
    say_lengths(&rt, one_each(1, 1));
    say_lengths(&rt, one_each(15, 15));
    say_lengths(&rt, systems::system_a(16));
    say_lengths(&rt, systems::system_longest(1));
    say::say(&rt, b"the order of 5, 31, 11, 15 and 12\n");
    say_just(&rt, one_each(17, 17), 0, 0);
    say_short(&rt, one_each(16, 17), 17, 15);
    say_just(&rt, one_each(16, 17), 18, 15);
    say_just(&rt, one_each(16, 17), 18, 16);
    say_short(&rt, one_each(16, 16), 16, 15);
    say_just(&rt, one_each(16, 16), 17, 15);
    say_just(&rt, one_each(16, 16), 17, 16);
    say_apart(&rt);
}
