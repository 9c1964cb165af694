// Listings, whole, as they are written: document 01's worked one; a file for each refusal that a file can come to, and tables of which one
// part is too short, or both; files of the greatest length, with 1,024 and with 4,096 columns and all 16 engines; files with bytes past a good one, up to and
// past the 384 that
// program `plan` reads; files with a C and T, which change no plan; and every refusal number through the listing of a refused plan. What is expected was
// computed apart from the code.
#![tactic(auto)]

use brute::recovery;
use listing_code::{listing, listing_of, write_listing};
use planner::Plan;
use system::{Cycle, ENGINE_LIMIT, Refusal, System, TYPE_LIMIT};
use trial::files::file_of;
use trial::lent::front;
use trial::say::{say, say_also};
use trial::systems::{
    single, six_of, system_a, system_b, system_full, system_longest, system_paced, with_data,
    with_most, with_pace, with_pace_at,
};

// The listing of a file, after a line that names it.
fn say_listing(rt: &HostRuntime, name: &[u8], file: &[u8]) {
    let mut out = io::buffer();
    let written = listing_of(file, &mut out);
    say(rt, name);
    say(rt, b"\n");
    say(rt, &out[..written]);
}

fn say_system(rt: &HostRuntime, name: &[u8], y: System) {
    let f = file_of(y);
    say_listing(rt, name, front(&f.bytes, f.size));
}

// The file of system A with another byte at a place.
fn say_changed(rt: &HostRuntime, name: &[u8], at: usize, byte: u8) {
    let mut f = file_of(system_a(3));
    if let Some(old) = f.bytes.get_mut(at) {
        *old = byte;
    }
    say_listing(rt, name, front(&f.bytes, f.size));
}

// A part after a listing: its first entry, which is that of column 0, and its last one.
fn say_ends(rt: &HostRuntime, name: &[u8], part: &[u16]) {
    say(rt, name);
    if let (Some(first), Some(last)) = (part.first(), part.last()) {
        say_also(rt, usize::from(*first));
        say_also(rt, usize::from(*last));
    }
}

// The listing of system A over two lent parts, and what it leaves in them.
fn say_lent(rt: &HostRuntime, name: &[u8], rows: &mut [u16], predecessors: &mut [u16]) {
    let f = file_of(system_a(2));
    let mut out = io::buffer();
    let written = listing(front(&f.bytes, f.size), rows, predecessors, &mut out);
    say(rt, name);
    say(rt, b"\n");
    say(rt, &out[..written]);
    say_ends(rt, b"rows", rows);
    say_ends(rt, b", predecessors", predecessors);
    say(rt, b"\n");
}

// System A has 12 columns: either part an entry short, or both, whatever the other has; none at all; and just enough.
fn say_parts(rt: &HostRuntime) {
    let mut short = [7u16; 11];
    let mut other = [7u16; 11];
    let mut just = [7u16; 12];
    let mut same = [7u16; 12];
    let mut long = [7u16; 36];
    let mut none = [0u16; 0];
    say_lent(rt, b"rows short", &mut short, &mut just);
    say_lent(rt, b"predecessors short", &mut just, &mut short);
    say_lent(rt, b"both short", &mut short, &mut other);
    say_lent(rt, b"rows short, predecessors long", &mut short, &mut long);
    say_lent(rt, b"predecessors short, rows long", &mut long, &mut short);
    say_lent(rt, b"no rows", &mut none, &mut long);
    say_lent(rt, b"no predecessors", &mut long, &mut none);
    say_lent(rt, b"just enough", &mut just, &mut same);
    say_lent(rt, b"rows long", &mut long, &mut just);
    say_lent(rt, b"predecessors long", &mut just, &mut long);
}

// The listing of a plan that was refused.
fn say_refused(rt: &HostRuntime, why: Refusal) {
    let plan = Plan {
        answer: Err(why),
        used: 0,
        typecount: 0,
        numbers: [0; ENGINE_LIMIT],
        loads: [recovery::idle(); ENGINE_LIMIT],
    };
    let mut out = io::buffer();
    let written = write_listing(&mut out, plan);
    say(rt, &out[..written]);
}

// Every number up to the greatest that a file can come to, from either list.
fn say_numbers(rt: &HostRuntime) {
    for n in 1..44u8 {
        say_refused(rt, Refusal::Input(n));
        say_refused(rt, Refusal::State(n));
    }
}

// A file for each refusal that it can come to.
fn say_refusals(rt: &HostRuntime) {
    let a = file_of(system_a(3));
    say_listing(rt, b"one byte", &a.bytes[..1]);
    say_listing(rt, b"a body cut", &a.bytes[..38]);
    say_changed(rt, b"tag 8", 13, 8);
    say_changed(rt, b"a C and T after the platform", 13, 5);
    say_changed(rt, b"a q after the platform", 13, 4);
    say_changed(rt, b"a d after the platform", 13, 3);
    say_changed(rt, b"a type first", 0, 2);
    say_changed(rt, b"a second platform", 13, 1);
    say_changed(rt, b"length 11", 15, 11);
    say_system(rt, b"m 0", system_a(0));
    say_system(rt, b"m 17", system_a(17));
    say_changed(rt, b"rule 2", 4, 2);
    say_changed(rt, b"U 16777226", 5, 1);
    say_system(rt, b"d 1000001", with_data(system_a(3), 1000001));
    say_system(rt, b"q 0", with_most(system_a(3), 0));
    say_system(rt, b"C 2, T 6", with_pace(system_a(3), 2, 6));
    say_listing(rt, b"empty", &a.bytes[..0]);
    say_listing(rt, b"no type", &a.bytes[..13]);
    say_system(rt, b"n 4096", single(1, 0, 0, 0, 4096));
    say_system(rt, b"no good assignment", system_b(3, 0));
    say_system(
        rt,
        b"no good assignment that keeps q",
        with_most(system_b(3, 1), 1),
    );
    say_parts(rt);
}

// The file of a system, these bytes behind it, and then the same byte.
fn longer(y: System, behind: &[u8], byte: u8) -> [u8; 512] {
    let f = file_of(y);
    let mut bytes = [byte; 512];
    let first = front(&f.bytes, f.size).iter().chain(behind);
    for (new, old) in bytes.iter_mut().zip(first) {
        *new = *old;
    }
    bytes
}

// The first bytes of a file with the same byte behind it, of each case: its name, the byte, and how many are read.
fn say_longer(rt: &HostRuntime, y: System, cases: &[(&[u8], u8, usize)]) {
    for (name, byte, size) in cases {
        say_listing(rt, name, front(&longer(y, b"", *byte), *size));
    }
}

// The first bytes of a file with a seventh type, of each size.
fn say_seventh(rt: &HostRuntime, name: &[u8], y: System, sizes: &[usize]) {
    let bytes = longer(y, b"\x02\x00\x0a", 0);
    for size in sizes {
        say_listing(rt, name, front(&bytes, *size));
    }
}

// The longest file of one kind of engine, with bytes past it.
fn say_paced_lengths(rt: &HostRuntime) {
    let cases: [(&[u8], u8, usize); 12] = [
        (b"228 bytes", 0, 228),
        (b"229 bytes", 0, 229),
        (b"230 bytes", 2, 230),
        (b"231 bytes", 2, 231),
        (b"232 bytes, no tag", 0, 232),
        (b"232 bytes, no length", 2, 232),
        (b"232 bytes, a q after C and T", 4, 232),
        (b"232 bytes, a second C and T", 5, 232),
        (b"383 bytes, C and T", 0, 383),
        (b"384 bytes, C and T", 1, 384),
        (b"385 bytes, C and T", 2, 385),
        (b"512 bytes, C and T", 5, 512),
    ];
    say_longer(rt, system_paced(1), &cases);
    say_seventh(
        rt,
        b"seven types, C and T",
        system_paced(0),
        &[241, 242, 384, 385],
    );
}

// The longest file without a C and T, with bytes past it.
fn say_lengths(rt: &HostRuntime) {
    let cases: [(&[u8], u8, usize); 12] = [
        (b"162 bytes", 0, 162),
        (b"163 bytes", 0, 163),
        (b"164 bytes", 2, 164),
        (b"165 bytes", 2, 165),
        (b"166 bytes, no tag", 0, 166),
        (b"166 bytes, no length", 2, 166),
        (b"166 bytes, a d after q", 3, 166),
        (b"166 bytes, a second q", 4, 166),
        (b"383 bytes", 0, 383),
        (b"384 bytes", 1, 384),
        (b"385 bytes", 2, 385),
        (b"512 bytes", 3, 512),
    ];
    say_longer(rt, system_longest(1), &cases);
    say_seventh(rt, b"seven types", system_longest(0), &[175, 176, 384, 385]);
}

// Plans that a q parts.
fn say_mosts(rt: &HostRuntime) {
    say_system(rt, b"system A with q 1", with_most(system_a(3), 1));
    say_system(rt, b"system B, shared, q 1", with_most(system_b(4, 1), 1));
    say_system(rt, b"system B, shared, q 3", with_most(system_b(4, 1), 3));
}

// Plans of files with a C and T: those without them.
fn say_paces(rt: &HostRuntime) {
    let one = with_pace_at(system_a(3), 0, Some(Cycle { run: 2, period: 5 }));
    say_system(rt, b"system A with C and T of type 1", one);
    say_system(rt, b"system A with C and T", with_pace(one, 19660, 65535));
    say_system(
        rt,
        b"no good assignment, C and T",
        with_pace(system_b(3, 0), 1, 5),
    );
    say_system(rt, b"longest with C and T, rule 0", system_paced(0));
}

// One more column than there might be before request 2026-10, and as many as there may be.
fn say_widest(rt: &HostRuntime) {
    say_system(rt, b"n 1024, m 1", single(1, 0, 0, 0, 1024));
    say_system(rt, b"n 4095, m 16", single(16, 0, 1000000, 3906, 4095));
    say_system(rt, b"n 4095, m 1", single(1, 1, 1000000, 0, 4095));
    say_system(rt, b"n 4095, too many", single(16, 0, 1000000, 3922, 4095));
}

fn main(rt: HostRuntime) {
    say_system(&rt, b"system A", system_a(3));
    say_refusals(&rt);
    say_system(&rt, b"all n 0, m 1", six_of(1, [0; TYPE_LIMIT]));
    say_system(&rt, b"all n 0, m 16", six_of(16, [0; TYPE_LIMIT]));
    say_system(&rt, b"costs nothing", six_of(16, [1; TYPE_LIMIT]));
    say_system(&rt, b"system A with d 1", with_data(system_a(3), 1));
    say_system(&rt, b"system B, shared, d 2", with_data(system_b(4, 1), 2));
    say_mosts(&rt);
    say_system(&rt, b"1024 columns, rule 0", system_full(0));
    say_system(&rt, b"1024 columns, rule 1", system_full(1));
    say_system(&rt, b"longest, rule 0", system_longest(0));
    say_system(&rt, b"n 1023, m 16", single(16, 0, 1000000, 15625, 1023));
    say_system(&rt, b"n 1023, m 1", single(1, 1, 1000000, 0, 1023));
    say_system(
        &rt,
        b"n 1023, too many",
        single(16, 1, 1000000, 1000000, 1023),
    );
    say_widest(&rt);
    say_lengths(&rt);
    say_paces(&rt);
    say_paced_lengths(&rt);
    say(&rt, b"refused plans\n");
    say_numbers(&rt);
}
