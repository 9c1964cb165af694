// The cases as they stand in the text, a line for each: its name, its kind, a file, how many entries of the row part and of the predecessor part are lent,
// and a text to the line's end:
// - f: filling alone, for all engines of the file; the text is `-`, nothing. A vector of which a board has fewer engines in service has two cases: one of the
//   file with so many engines, for the pairs, and a list of calls that ends with a repack, for the parts;
// - p: a plan; the text is how many records of the list are lent;
// - l: a list of calls, the text.
use crate::lent::{Call, say_over};
use trial::cases::Words;
use trial::lent::Lengths;
use trial::say;

// A case, from its line.
pub fn say_case(rt: &HostRuntime, line: &[u8]) {
    let mut words = Words::of(line);
    say::say(rt, words.word());
    say::say(rt, b":");
    let call = Call::from(words.letter());
    let file = words.bytes();
    let rows = words.number();
    let predecessors = words.number();
    let lent = Lengths { rows, predecessors };
    say_over(rt, call, file.as_slice(), words.rest(), lent);
}
