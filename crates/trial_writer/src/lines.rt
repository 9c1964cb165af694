// Lines on standard output: what a call of the writer answered, and that its buffer or a round trip is wrong where it is; and the bytes of a file.
use crate::{lent, rounds};
use system::{Answer, Refusal, System};
use system_code::read_card;
use trial::buffers::BUFFER_BYTES;
use trial::changes::with_number;
use trial::files::File;
use trial::lent::front;
use trial::say;

fn say_refusal(rt: &HostRuntime, r: Refusal) {
    match r {
        Refusal::Input(n) => say::say_also(rt, n as usize),
        Refusal::State(n) => {
            say::say_also(rt, n as usize);
            say::say(rt, b" from the state");
        }
    }
}

fn say_answer(rt: &HostRuntime, a: Answer) {
    match a {
        Ok(None) => say::say(rt, b" accepted"),
        Ok(Some(n)) => {
            say::say(rt, b" written");
            say::say_also(rt, n);
        }
        Err(r) => {
            say::say(rt, b" refused");
            say_refusal(rt, r);
        }
    }
}

// What was answered, and that the buffer or a round trip is wrong where it is.
pub fn say_judged(rt: &HostRuntime, y: System, room: usize) {
    say_answer(rt, lent::called(y, room, 33).answer);
    if !rounds::right(y, room) {
        say::say(rt, b" wrong");
    }
}

// The end of a line.
pub fn say_call(rt: &HostRuntime, y: System, room: usize) {
    say_judged(rt, y, room);
    say::say(rt, b"\n");
}

// The same for some numbers in one place of the type at index t.
pub fn say_each(rt: &HostRuntime, y: System, what: u8, t: usize, numbers: &[usize]) {
    for n in numbers {
        say_judged(rt, with_number(y, what, t, *n), BUFFER_BYTES);
    }
    say::say(rt, b"\n");
}

// The bytes of a file.
fn say_bytes(rt: &HostRuntime, bytes: &[u8]) {
    for b in bytes {
        say::say_also(rt, *b as usize);
    }
    say::say(rt, b"\n");
}

pub fn say_whole(rt: &HostRuntime, f: File) {
    say_bytes(rt, f.as_slice());
}

pub fn say_file(rt: &HostRuntime, y: System) {
    let c = lent::called(y, BUFFER_BYTES, 33);
    say_answer(rt, c.answer);
    if let Ok(Some(n)) = c.answer {
        say_bytes(rt, front(&c.bytes, n));
    }
}

// The same of a buffer of so many bytes, judged; the bytes where it is written, and the end of a line in every case.
pub fn say_room(rt: &HostRuntime, y: System, room: usize) {
    let c = lent::called(y, room, 33);
    say_judged(rt, y, room);
    if let Ok(Some(n)) = c.answer {
        say_bytes(rt, front(&c.bytes, n));
    } else {
        say::say(rt, b"\n");
    }
}

// What a file reads as.
fn system_of(f: File) -> System {
    read_card(f.as_slice()).system
}

// A file with a tag 3 of d 0: how long it is, and how long the one is that is written for what was read.
pub fn say_zero(rt: &HostRuntime, f: File) {
    say::say_also(rt, f.size);
    say::say(rt, b" bytes,");
    say_call(rt, system_of(f), BUFFER_BYTES);
}

// The bytes that are written for what such a file reads as.
pub fn say_again(rt: &HostRuntime, f: File) {
    say_file(rt, system_of(f));
}
