// The line that program `why` writes: a case on each line of standard input, with a name and the bytes of a system file, as text. Prints for each case the
// line of
// the whole file, and after it the line of what the program reads of that file. What is expected was computed apart from the code, by a model of documents 01
// and 02.
#![tactic(auto)]

use system::FILE_BYTES;
use trial::cases::{Words, each_case};
use trial::say::say;
use wording_code::{why_of, why_read};

// The bytes of the text that are read at most.
const TEXT_BYTES: usize = 32768;

// As that of trial_tight, but for the two calls: one function for both would take two closures over arrays, and be no plainer.
fn say_case(rt: &HostRuntime, line: &[u8]) {
    let mut words = Words::of(line);
    let name = words.word();
    let file = words.bytes();
    let mut out = io::buffer();
    let written = why_of(file.as_slice(), &mut out);
    say(rt, name);
    say(rt, b": ");
    say(rt, &out[..written]);
    // What the program reads of the file.
    let mut front = [0u8; FILE_BYTES];
    front.copy_from_slice(&file.bytes[..FILE_BYTES]);
    let mut out = io::buffer();
    let written = why_read(front, file.size, &mut out);
    say(rt, b" read: ");
    say(rt, &out[..written]);
}

// Each trial has its own `main`, and the call that they share is one line.
fn main(rt: HostRuntime) {
    each_case::<TEXT_BYTES, _>(&rt, |line| say_case(&rt, line));
}
