// The cases as they stand in the text, a word for each part, and a line for each.
use crate::{calls, one_by_one};
use brute::recovery::columns_of;
use counting::Counts;
use system::{Refusal, System};
use trial::cases::Words;
use trial::files::reading_of;
use trial::say::{say, say_also};

// The bytes of the text that are read at most.
pub const TEXT_BYTES: usize = 65536;

// Two numbers, one of the other.
fn say_of(rt: &HostRuntime, good: usize, total: usize) {
    say_also(rt, good);
    say(rt, b" of");
    say_also(rt, total);
}

// Both numbers, what was left past the first 2 × columns entries, and the numbers one by one, where there are few.
fn say_counts(rt: &HostRuntime, y: System, c: Counts, kept: usize) {
    say_of(rt, c.good as usize, c.total as usize);
    let columns = columns_of(y);
    if kept <= columns.wrapping_add(columns) {
        say(rt, b" kept");
    } else {
        say(rt, b" spoiled");
    }
    if let Some(gone) = one_by_one::assignments(y) {
        say(rt, b", one by one");
        say_of(rt, gone.good, gone.total);
    }
}

// A refusal, and whether the whole part is as it was lent.
fn say_refused(rt: &HostRuntime, r: Refusal, kept: usize) {
    match r {
        Refusal::Input(n) => {
            say(rt, b" no");
            say_also(rt, n as usize);
        }
        Refusal::State(n) => {
            say(rt, b" state");
            say_also(rt, n as usize);
        }
    }
    if kept == 0 {
        say(rt, b" lent");
    } else {
        say(rt, b" spoiled");
    }
}

// A case: its name, its file, and the entries lent.
pub fn say_case(rt: &HostRuntime, line: &[u8]) {
    let mut words = Words::of(line);
    let name = words.word();
    let file = words.bytes();
    let called = calls::counted(file.as_slice(), words.number());
    say(rt, name);
    say(rt, b":");
    match called.answer {
        Ok(counts) => say_counts(rt, reading_of(file.as_slice()).system, counts, called.kept),
        Err(r) => say_refused(rt, r, called.kept),
    }
    say(rt, b"\n");
}
