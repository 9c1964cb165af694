// A line for each case, and the lines of its cuts and changes.
use crate::calls::{CheckCall, WriteCall, checked, kept_from, written};
use system::Refusal;
use trial::cases::Words;
use trial::lent::{Lengths, front};
use trial::say::{say, say_also, say_hex, say_number};
use trial::words::{Bytes, CASE_BYTES};

// By how much every byte of a sheet is changed, one way after the other.
const CHANGES: [u8; 4] = [1, 255, 16, 128];

// A case: a file, what is lent, the sheet, and in how many ways every byte of that is changed.
#[derive(Clone, Copy)]
struct Case {
    file: Bytes,
    lent: Lengths,
    room: usize,
    sheet: Bytes,
    ways: usize,
}

fn case_in(mut words: Words) -> Case {
    Case {
        file: words.bytes(),
        lent: Lengths {
            rows: words.number(),
            predecessors: words.number(),
        },
        room: words.number(),
        sheet: words.bytes(),
        ways: words.number(),
    }
}

// The number of a refusal; none is from the state.
fn say_refusal(rt: &HostRuntime, why: Refusal) {
    say(rt, b" no");
    match why {
        Refusal::Input(n) => say_also(rt, usize::from(n)),
        Refusal::State(n) => say_also(rt, 500 + usize::from(n)),
    }
}

fn say_table(rt: &HostRuntime, changed: Option<usize>) {
    match changed {
        None => say(rt, b" lent"),
        Some(number) => say_also(rt, number),
    }
}

fn say_checked(rt: &HostRuntime, c: CheckCall) {
    match c.answer {
        Ok(true) => say(rt, b" fewer"),
        Ok(false) => say(rt, b" right"),
        Err(why) => say_refusal(rt, why),
    }
    say_table(rt, c.changed);
}

fn say_spoiled(rt: &HostRuntime, kept: bool) {
    if !kept {
        say(rt, b" spoiled");
    }
}

// What was written, and what the check says of it over a table of its own.
fn say_own(rt: &HostRuntime, c: &Case, w: &WriteCall, size: usize) {
    let sheet = front(&w.buffer, size);
    say_also(rt, size);
    say(rt, b" ");
    for byte in sheet {
        say_hex(rt, *byte);
    }
    say_spoiled(rt, kept_from(&w.buffer, size));
    say_table(rt, w.changed);
    say(rt, b" |");
    say_checked(rt, checked(c.file.as_slice(), sheet, c.lent));
}

fn say_written(rt: &HostRuntime, c: &Case) {
    let w = written(c.file.as_slice(), c.lent, c.room);
    match w.answer {
        Ok(None) => say(rt, b" nothing"),
        Ok(Some(size)) => say_own(rt, c, &w, size),
        Err(why) => {
            say_refusal(rt, why);
            say_spoiled(rt, kept_from(&w.buffer, 0));
            say_table(rt, w.changed);
        }
    }
}

// The check of another sheet as a letter: r and f for one that is right, the last digit of 32, 33 and 34. The table is filled by a right one only.
fn say_letter(rt: &HostRuntime, c: &Case, sheet: &[u8]) {
    let checked = checked(c.file.as_slice(), sheet, c.lent);
    if checked.answer.is_ok() != checked.changed.is_some() {
        say(rt, b"!");
        return;
    }
    match checked.answer {
        Ok(true) => say(rt, b"f"),
        Ok(false) => say(rt, b"r"),
        Err(Refusal::Input(32)) => say(rt, b"2"),
        Err(Refusal::Input(33)) => say(rt, b"3"),
        Err(Refusal::Input(34)) => say(rt, b"4"),
        Err(_) => say(rt, b"?"),
    }
}

// The sheet cut at every place, whole, and with a byte 0 more.
fn say_cuts(rt: &HostRuntime, c: &Case) {
    say(rt, b"  cut ");
    for n in 0..CASE_BYTES.min(c.sheet.size.saturating_add(2)) {
        say_letter(rt, c, front(&c.sheet.bytes, n));
    }
    say(rt, b"\n");
}

// Every byte of the sheet made larger by the same number, past 255 from 0 on. By its place, since each time it is the one byte of a new copy that differs.
fn say_changes(rt: &HostRuntime, c: &Case, more: u8) {
    say(rt, b"  +");
    say_number(rt, usize::from(more));
    say(rt, b" ");
    for i in 0..CASE_BYTES.min(c.sheet.size) {
        let mut sheet = c.sheet;
        sheet.bytes[i] = sheet.bytes[i].wrapping_add(more);
        say_letter(rt, c, sheet.as_slice());
    }
    say(rt, b"\n");
}

pub fn say_case(rt: &HostRuntime, line: &[u8]) {
    let mut words = Words::of(line);
    say(rt, words.word());
    say(rt, b":");
    let c = case_in(words);
    say_checked(rt, checked(c.file.as_slice(), c.sheet.as_slice(), c.lent));
    say(rt, b" |");
    say_written(rt, &c);
    say(rt, b"\n");
    if 0 < c.ways {
        say_cuts(rt, &c);
        for more in CHANGES.iter().take(c.ways) {
            say_changes(rt, &c, *more);
        }
    }
}
