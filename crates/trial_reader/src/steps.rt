// The field step at some places of a file: the tag and the length that stand there (0 past the end), whether both are there (`headed`, else `bare`), whether
// the whole field is (`whole`, else `cut`), where its body starts, the place after it, how long the part is that is handed on as its body, and its bytes.
// Tag, length, body and next place are also asked for one by one, and `but by parts` is said where one of them is another.
use crate::bodies::say_body;
use std::array;
use system::{Cursor, Field};
use trial::lent::front;
use trial::say::{say, say_also};

// The bytes of the longest file here: a field of 65,535 bytes, the most that its length can say, and one of 2.
const FILE_BYTES: usize = 65543;

// One of two words.
fn say_either(rt: &HostRuntime, first: bool, word: &[u8], other: &[u8]) {
    if first {
        say(rt, word);
    } else {
        say(rt, other);
    }
}

// A word and a number.
fn say_named(rt: &HostRuntime, word: &[u8], n: usize) {
    say(rt, word);
    say_also(rt, n);
}

// Whether the four answers at a place are those of the step there, and of the part that it hands on.
fn same_by_parts(file: &[u8], at: usize, field: Field, body: &[u8]) -> bool {
    let c = Cursor { at };
    let next = system_code::next_at(file, c);
    let size = system_code::length_at(file, c) as usize;
    (system_code::tag_at(file, c) == field.tag)
        & (size == field.size)
        & (next == field.next)
        & (system_code::body_at(file, c) == body)
}

// The field step at a place: its answer, and the part of the file that it hands on.
fn step(rt: &HostRuntime, name: &[u8], file: &[u8], at: usize) {
    let c = Cursor { at };
    let field = system_code::field_at(file, c);
    let body = system_code::body_part(file, field);
    say(rt, name);
    say_named(rt, b" tag", field.tag as usize);
    say_named(rt, b" length", field.size);
    say_either(rt, field.headed, b" headed", b" bare");
    say_either(rt, field.whole, b" whole", b" cut");
    say_named(rt, b" start", field.start);
    say_named(rt, b" next", field.next.at);
    say_named(rt, b" body", body.len());
    say_body(rt, body);
    say_either(
        rt,
        same_by_parts(file, at, field, body),
        b"",
        b" but by parts",
    );
    say(rt, b"\n");
}

// Two fields, of 40 bytes, more than any field of a system file has, and of none, then the start of one; and places between them, where other bytes
// are taken for a head.
pub fn steps(rt: &HostRuntime) {
    let file = b"\x01\x00\x28a field whose body has just forty bytes.\x09\x00\x00\x02\x00\x05\xCC";
    step(rt, b"step-at-0", file, 0);
    step(rt, b"step-at-1", file, 1);
    step(rt, b"step-at-43", file, 43);
    step(rt, b"step-at-44", file, 44);
    step(rt, b"step-at-46", file, 46);
    step(rt, b"step-at-47", file, 47);
    step(rt, b"step-at-48", file, 48);
    step(rt, b"step-at-49", file, 49);
    step(rt, b"step-at-the-end", file, 50);
    step(rt, b"step-after-the-end", file, 51);
    step(rt, b"step-past-the-end", file, 18446744073709551615);
}

// A file whose bytes differ from place to place: each is 7 more than the one before it, at every 256th place 8 more, from 255 on to 0 again. So no 256 bytes
// in a row are those that begin at another place less than 65,536 away.
fn varied() -> [u8; FILE_BYTES] {
    array::from_fn(|i| (((i % 65536) * 7 + i / 256 % 256) % 256) as u8)
}

// A field of 300 bytes, whose length takes both of its bytes, 1 and 44, and one of 2 after it; then the long field alone, the same one byte short,
// and with 44 bytes of its body.
pub fn long_steps(rt: &HostRuntime) {
    let mut all = varied();
    all[0] = 6;
    all[1] = 1;
    all[2] = 44;
    all[303] = 9;
    all[304] = 0;
    all[305] = 2;
    let file = front(&all, 308);
    step(rt, b"long-at-0", file, 0);
    step(rt, b"long-at-303", file, 303);
    step(rt, b"long-alone", front(file, 303), 0);
    step(rt, b"long-cut-by-one", front(file, 302), 0);
    step(rt, b"long-cut-after-44", front(file, 47), 0);
}

// A field of 65,535 bytes and one of 2 after it; at place 5, within the long one, the head of another of 65,535, which ends where the file does.
fn longest() -> [u8; FILE_BYTES] {
    let mut file = varied();
    file[0] = 7;
    file[1] = 255;
    file[2] = 255;
    file[5] = 8;
    file[6] = 255;
    file[7] = 255;
    file[65538] = 9;
    file[65539] = 0;
    file[65540] = 2;
    file
}

// Both fields; the long field alone, and one byte short; and the field at place 5, whole and one byte short.
pub fn longest_steps(rt: &HostRuntime) {
    let file = longest();
    step(rt, b"longest-at-0", &file, 0);
    step(rt, b"longest-at-65538", &file, 65538);
    step(rt, b"longest-alone", front(&file, 65538), 0);
    step(rt, b"longest-cut-by-one", front(&file, 65537), 0);
    step(rt, b"longest-at-5", &file, 5);
    step(rt, b"longest-at-5-cut-by-one", front(&file, 65542), 5);
}
