// Sheets checked and written: a case on each line of standard input, with a system file, the lengths of the two lent parts and the buffer, and a sheet, all
// as text.
// Prints for each case what the check of the sheet answers and leaves in the table; what the plan's own sheet is, and the table after it; and what the check
// says
// of that one. For some cases also every cut of the sheet and every byte of it changed in a few ways, a letter for each answer. What is expected was computed
// apart from the code, by a model of documents 01 and 02.
#![tactic(auto)]

use trial::cases::each_case;

mod calls;
mod lines;

// The bytes of the text that are read at most.
const TEXT_BYTES: usize = 262144;

// Each trial has its own `main`, and the call that they share is one line.
fn main(rt: HostRuntime) {
    each_case::<TEXT_BYTES, _>(&rt, |line| lines::say_case(&rt, line));
}
