// Causes told: a case on each line of standard input, with a name, f and a system file or b and a board, a newcomer's type, and the lengths of the two lent
// parts, all as text.
// Prints for each case the cause or the refusal, and what was left in the table; then what a plan of the file answers, or an admit and a seat on the board.
// What is expected was computed apart from the code, by a model of documents 01 and 02.
#![tactic(auto)]

use trial::cases::each_case;

mod as_promised;
mod boards;
mod calls;
mod lines;

// The bytes of the text that are read at most.
const TEXT_BYTES: usize = 262144;

// Each trial has its own `main`, and the call that they share is one line.
fn main(rt: HostRuntime) {
    each_case::<TEXT_BYTES, _>(&rt, |line| lines::say_case(&rt, line));
}
