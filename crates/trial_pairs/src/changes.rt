// A file with a byte changed and cut to a size: refused 1 to 10 and 31, without a number, whether the parts are long enough or not. As it is,
// it is accepted with its number, and refused 11 where one part has no entry, or none has.
use crate::fills::{LONG, filled_over, lengths, parts_after};
use trial::buffers::BUFFER_BYTES;
use trial::lent::front;
use trial::{files, say, systems};

// Where the byte stands, the byte, and the size.
#[derive(Clone, Copy)]
struct Change(usize, u8, usize);

// Bytes 0 to 12 are the platform, 13 to 25 type 1, 26 to 30 its q, 31 to 95 types 2 to 6, 96 to 108 a seventh type.
const CHANGES: [Change; 19] = [
    Change(0, 1, 96),
    Change(0, 1, 1),
    Change(0, 1, 25),
    Change(13, 8, 96),
    Change(0, 2, 96),
    Change(13, 1, 96),
    Change(2, 11, 96),
    Change(15, 9, 96),
    Change(3, 0, 96),
    Change(3, 17, 96),
    Change(4, 2, 96),
    Change(0, 1, 109),
    Change(5, 1, 96),
    Change(16, 255, 96),
    Change(0, 1, 0),
    Change(0, 1, 13),
    Change(24, 4, 96),
    Change(30, 0, 96),
    Change(30, 0, 109),
];

// The file of six types of n 1 that cost nothing, the first with q 1, and a seventh type.
fn seven_types() -> [u8; BUFFER_BYTES] {
    let y = systems::with_most_at(systems::six_of(16, [1; 6]), 0, Some(1));
    let mut bytes = files::file_of(y).bytes;
    bytes[96] = 2;
    bytes[98] = 10;
    bytes
}

fn say_answer(rt: &HostRuntime, file: &[u8], rows: usize, predecessors: usize) {
    let f = filled_over(file, &parts_after(b"", 7), lengths(rows, predecessors));
    say::say_also(rt, say::code_of(f.answer));
}

// The answers over two long parts, over one of them and none of the other, and over none.
fn say_answers(rt: &HostRuntime, bytes: &[u8; BUFFER_BYTES], size: usize) {
    let file = front(bytes, size);
    say_answer(rt, file, LONG, LONG);
    say_answer(rt, file, 0, LONG);
    say_answer(rt, file, LONG, 0);
    say_answer(rt, file, 0, 0);
}

fn say_change(rt: &HostRuntime, c: Change) {
    let mut bytes = seven_types();
    if let Some(b) = bytes.get_mut(c.0) {
        *b = c.1;
    }
    say_answers(rt, &bytes, c.2);
}

// A line of all answers for each change.
pub fn say_changes(rt: &HostRuntime) {
    say::say(rt, b"changed:");
    for c in CHANGES {
        say_change(rt, c);
    }
    say::say(rt, b"\n");
}
