// Good assignments counted: a case on each line of standard input, with a name, the bytes of a system file and how many entries of the part of 64-bit
// numbers are lent, all as text. Prints for each case both numbers, or the refusal; and whether every entry past 2 × columns of a part that is dirty, or
// after a refusal every entry, is as it was lent. Where there are few assignments they are also gone through one by one, and those that are good counted.
// What is expected was computed apart from the code, by a model of documents 01 and 02.
#![tactic(auto)]

use trial::cases::each_case;

mod calls;
mod lines;
mod one_by_one;

// Each trial has its own `main`, and the call that they share is one line.
fn main(rt: HostRuntime) {
    each_case::<{ lines::TEXT_BYTES }, _>(&rt, |line| lines::say_case(&rt, line));
}
