// What is said of sheets of document 01's system A, three engines and two types, through `check_of` and through `check_read`: each of the two other lines,
// each refusal
// of a sheet, a file that does not read; input that is joined, cut at every place that matters, and far too long; of a file with 4,096 columns and one with
// 4,097; and of
// the longest sheet there is, alone and with up to 7,712 bytes behind it.
// What is expected was computed apart from the code.
#![tactic(auto)]

use answers_code::{JOINED_BYTES, check_of, check_read, sheet_of, sheet_read};
use system::FILE_BYTES;

// System A.
const FILE: [u8; 39] = [
    1, 0, 10, 3, 0, 0, 0, 0, 10, 0, 0, 0, 8, 2, 0, 10, 0, 0, 0, 4, 0, 0, 0, 3, 0, 3, 2, 0, 10, 0,
    0, 0, 3, 0, 0, 0, 2, 0, 2,
];

// The sheet of its plan, on two engines.
const SHEET: [u8; 37] = [
    16, 0, 2, 2, 2, 17, 0, 13, 1, 0, 0, 0, 8, 0, 0, 0, 6, 0, 2, 0, 0, 17, 0, 13, 2, 0, 0, 0, 10, 0,
    0, 0, 7, 0, 1, 0, 2,
];

// A good assignment on three.
const THREE: [u8; 53] = [
    16, 0, 2, 3, 2, 17, 0, 13, 1, 0, 0, 0, 8, 0, 0, 0, 6, 0, 2, 0, 0, 17, 0, 13, 2, 0, 0, 0, 4, 0,
    0, 0, 3, 0, 1, 0, 0, 17, 0, 13, 3, 0, 0, 0, 6, 0, 0, 0, 4, 0, 0, 0, 2,
];

// One type of n 4,095 that costs nothing, on two engines: as many columns as there may be.
const WIDEST: [u8; 26] = [
    1, 0, 10, 2, 0, 0, 0, 0, 0, 0, 0, 0, 0, 2, 0, 10, 0, 0, 0, 0, 0, 0, 0, 0, 15, 255,
];

// All of it on one engine: the sheet of its plan.
const ON_ONE: [u8; 19] = [
    16, 0, 2, 1, 1, 17, 0, 11, 1, 0, 0, 0, 0, 0, 0, 0, 0, 15, 255,
];

// And on both.
const ON_BOTH: [u8; 33] = [
    16, 0, 2, 2, 1, 17, 0, 11, 1, 0, 0, 0, 0, 0, 0, 0, 0, 15, 254, 17, 0, 11, 2, 0, 0, 0, 0, 0, 0,
    0, 0, 0, 1,
];

// As crate `trial`'s, of which this trial would take nothing else.
fn say(rt: &HostRuntime, text: &[u8]) {
    let _ = rt.write_all(text);
}

// A line that names the case, and what was written of it.
fn say_case(rt: &HostRuntime, name: &[u8], written: &[u8]) {
    say(rt, name);
    say(rt, b": ");
    say(rt, written);
}

// What is said of a sheet.
fn say_check(rt: &HostRuntime, name: &[u8], file: &[u8], sheet: &[u8]) {
    let mut out = io::buffer();
    let written = check_of(file, sheet, &mut out);
    say_case(rt, name, &out[..written]);
}

// The sheet of the plan with another byte at a place.
fn say_changed(rt: &HostRuntime, name: &[u8], at: usize, byte: u8) {
    let mut sheet = SHEET;
    if let Some(old) = sheet.get_mut(at) {
        *old = byte;
    }
    say_check(rt, name, &FILE, &sheet);
}

fn say_sheets(rt: &HostRuntime) {
    say_check(rt, b"the plan's", &FILE, &SHEET);
    say_check(rt, b"on three", &FILE, &THREE);
    say_check(rt, b"none", &FILE, &SHEET[..0]);
    say_check(rt, b"its last byte cut", &FILE, &SHEET[..36]);
    say_check(rt, b"its last record cut", &FILE, &SHEET[..21]);
    say_check(rt, b"a file that is cut", &FILE[..38], &SHEET);
    say_check(rt, b"no file", &FILE[..0], &SHEET);
    say_check(rt, b"a sheet as file", &SHEET, &SHEET);
    say_changed(rt, b"used 3", 3, 3);
    say_changed(rt, b"k 3", 4, 3);
    say_changed(rt, b"number 2 twice", 8, 2);
    say_changed(rt, b"number 3 for 2", 24, 3);
    say_changed(rt, b"number 4 for 2", 24, 4);
    say_changed(rt, b"time 9 for 8", 12, 9);
    say_changed(rt, b"size 8 for 7", 32, 8);
    say_changed(rt, b"a count more", 36, 3);
    say_changed(rt, b"a count of 256 more", 35, 1);
}

// An instance less, and its time and memory with it.
fn say_less(rt: &HostRuntime) {
    let mut sheet = SHEET;
    sheet[12] = 4;
    sheet[16] = 3;
    sheet[18] = 1;
    say_check(rt, b"one instance less", &FILE, &sheet);
}

// What is said of the first bytes of a joined input.
fn say_read(rt: &HostRuntime, name: &[u8], front: [u8; JOINED_BYTES], read: usize) {
    let mut out = io::buffer();
    let written = check_read(front, read, &mut out);
    say_case(rt, name, &out[..written]);
}

// These parts, one after the other, and then the same byte.
fn joined(parts: &[&[u8]], behind: u8) -> [u8; JOINED_BYTES] {
    let mut front = [behind; JOINED_BYTES];
    for (old, new) in front.iter_mut().zip(parts.iter().copied().flatten()) {
        *old = *new;
    }
    front
}

// The file and the sheet joined, with these two bytes in front; 0 past them.
fn joined_a(length: [u8; 2]) -> [u8; JOINED_BYTES] {
    joined(&[&length, &FILE, &SHEET], 0)
}

fn say_joined(rt: &HostRuntime) {
    let front = joined_a([0, 39]);
    say_read(rt, b"joined", front, 78);
    say_read(rt, b"a byte less", front, 77);
    say_read(rt, b"a byte more", front, 79);
    say_read(rt, b"all that is read", front, JOINED_BYTES);
    say_read(rt, b"more than can be read", front, 4294967295);
    say_read(rt, b"the file alone", front, 41);
    say_read(rt, b"the file cut", front, 40);
    say_read(rt, b"the length alone", front, 2);
    say_read(rt, b"half of it", front, 1);
    say_read(rt, b"nothing", front, 0);
    say_read(rt, b"a length of 38", joined_a([0, 38]), 78);
    say_read(rt, b"a length past the end", joined_a([255, 255]), 78);
}

// How many bytes the sheet of the first bytes of a file has, and its first byte.
fn say_sheet(rt: &HostRuntime, name: &[u8], file: &[u8]) {
    let mut out = io::buffer();
    let written = sheet_of(file, &mut out);
    say(rt, name);
    let _ = println!(rt; ": bytes {written}, the first {}", out[0]);
}

fn say_written(rt: &HostRuntime) {
    say_sheet(rt, b"a sheet", &FILE);
    say_sheet(rt, b"no sheet", &FILE[..0]);
    let mut out = io::buffer();
    let written = sheet_read([0; FILE_BYTES], 99999, &mut out);
    say_case(rt, b"zeros", &out[..written]);
}

// As many columns as there may be, and one more, over the functions' own parts.
fn say_widest(rt: &HostRuntime) {
    let mut more = WIDEST;
    more[24] = 16;
    more[25] = 0;
    say_check(rt, b"4096 columns, on one", &WIDEST, &ON_ONE);
    say_check(rt, b"4096 columns, on both", &WIDEST, &ON_BOTH);
    say_check(rt, b"4097 columns", &more, &ON_ONE);
    say_sheet(rt, b"4096 columns", &WIDEST);
    say_sheet(rt, b"4097 columns", &more);
}

// The longest sheet there is: 389 bytes, sixteen engines and six types. Its file has 91: one instance of type 1 fills an engine, n 16, and there are none of
// the types 2 to 6.

// A type of which there is none.
const NONE: [u8; 13] = [2, 0, 10, 0, 0, 0, 1, 0, 0, 0, 1, 0, 0];

// The record of engine 0, with one instance of type 1.
const RECORD: [u8; 24] = [
    17, 0, 21, 0, 0, 0, 0, 10, 0, 0, 0, 8, 0, 1, 0, 0, 0, 0, 0, 0, 0, 0, 0, 0,
];

// The file's length, the file, and the sheet's first field and its records; nothing but this byte behind them.
fn longest(behind: u8) -> [u8; JOINED_BYTES] {
    let platform = [1, 0, 10, 16, 0, 0, 0, 0, 10, 0, 0, 0, 8];
    let first = [2, 0, 10, 0, 0, 0, 10, 0, 0, 0, 8, 0, 16];
    let header = [16, 0, 2, 16, 6];
    let parts: [&[u8]; 9] = [
        &[0, 91],
        &platform,
        &first,
        &NONE,
        &NONE,
        &NONE,
        &NONE,
        &NONE,
        &header,
    ];
    let mut front = joined(&parts, behind);
    for (engine, record) in (1..17u8).zip(front[98..482].chunks_exact_mut(24)) {
        record.copy_from_slice(&RECORD);
        record[3] = engine;
    }
    front
}

// The sheet alone, and with bytes behind it: then it has surplus bytes, however many, as 3,707, with which it has 4,096, and one more.
fn say_behind(rt: &HostRuntime, front: [u8; JOINED_BYTES]) {
    say_read(rt, b"389 bytes", front, 482);
    say_read(rt, b"one less", front, 481);
    say_read(rt, b"one behind", front, 483);
    say_read(rt, b"3707 behind", front, 4189);
    say_read(rt, b"3708 behind", front, 4190);
    say_read(rt, b"7000 behind", front, 7482);
    say_read(rt, b"all that is read", front, JOINED_BYTES);
}

fn say_longest(rt: &HostRuntime) {
    say(rt, b"0 behind it\n");
    say_behind(rt, longest(0));
    say(rt, b"17 behind it\n");
    say_behind(rt, longest(17));
    say(rt, b"255 behind it\n");
    say_behind(rt, longest(255));
}

fn main(rt: HostRuntime) {
    say_sheets(&rt);
    say_less(&rt);
    say_joined(&rt);
    say_written(&rt);
    say_widest(&rt);
    say_longest(&rt);
}
