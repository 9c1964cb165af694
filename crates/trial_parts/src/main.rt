// The two parts of the lent table, through every call that fills them: a case on each line of standard input, with a system file and the lengths of the two
// parts that are lent, so that a case more costs no proof. The cases are all that were made outside this project from request 2026-10 (their names start
// with `vector`), and more of the same kinds: every number of engines in service, with marks spread over the board; parts of every length about the columns,
// each for itself; systems of 4,096 columns, and one more; systems in which everything fits, nothing does, and a total passes 32 bits. Prints for each case
// the answers, what is placed, and both parts after it. What is expected was computed apart from the code, by a model of documents 01 and 02 that has
// document 01's rows, each from the one before it. One of the outside cases, `vector-plan-13`, has a tag 7: refused 2 before request 2026-13, and 8 since.
#![tactic(auto)]

use trial::cases::each_case;

mod lent;
mod lines;
mod lists;
mod runs;

// Each trial has its own `main`, and the call that they share is one line.
fn main(rt: HostRuntime) {
    each_case::<131072, _>(&rt, |line| lines::say_case(&rt, line));
}
