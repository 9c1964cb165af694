// What program `make` writes: a case on each line of standard input, with a name and the bytes of a text of seven numbers, or of one that is not. Prints for
// each case what
// is written for the whole text, and after it what is written for what the program reads of it: a file as two digits for each byte, a line as it is.
// What is expected was computed apart from the code, by a model of document 02.
#![tactic(auto)]

use recipes_code::{make_of, make_read};
use system::FILE_BYTES;
use trial::cases::{Words, each_case};
use trial::say::{say, say_hex};

// The bytes of the text that are read at most.
const TEXT_BYTES: usize = 65536;

// What was written: a file, which starts with the byte 1, as two digits for each byte and the line's end, and a line as it is.
fn say_written(rt: &HostRuntime, written: &[u8]) {
    if written.starts_with(&[1]) {
        for byte in written {
            say_hex(rt, *byte);
        }
        say(rt, b"\n");
    } else {
        say(rt, written);
    }
}

fn say_case(rt: &HostRuntime, line: &[u8]) {
    let mut words = Words::of(line);
    let name = words.word();
    let text = words.bytes();
    let mut out = io::buffer();
    let written = make_of(text.as_slice(), &mut out);
    say(rt, name);
    say(rt, b": ");
    say_written(rt, &out[..written]);
    // What the program reads of the text.
    let mut front = [0u8; FILE_BYTES];
    front.copy_from_slice(&text.bytes[..FILE_BYTES]);
    let mut out = io::buffer();
    let written = make_read(front, text.size, &mut out);
    say(rt, b" read: ");
    say_written(rt, &out[..written]);
}

// Each trial has its own `main`, and the call that they share is one line.
fn main(rt: HostRuntime) {
    each_case::<TEXT_BYTES, _>(&rt, |line| say_case(&rt, line));
}
