// The limits of files and boards of one kind of engine, both ends of each: m 1 and 16, k 1 and 6, n 0 and 4,095, 1 and 4,096 columns, numbers 0 and 1,000,000,
// those of d among them, q 1 and 65,535; types and engines 0, the last, one past it and the largest number there is; one engine and all of
// them out of service; two parts that are just long enough, of which either is an entry too short, or both, and of 5,000 to 5,100 entries: through
// opening, planning, filling and the six calls of a board. C and T of 1 and 65,535, and each bound of refusal 43, through opening, planning and filling;
// three lists of calls
// from files that give them. A case on each line of standard input, so that a case more costs no proof. First files at the limits and one past them: what
// opening, planning and
// filling answer, and how many entries each part must have. Then plans, with what each engine gets, and lists of calls, with each answer and what an engine
// holds after it; a line at
// the end of each has what both parts hold at the last column, and whether every entry past it, or every entry, is as it was lent. What is
// expected was computed apart from the code. A board is opened and its calls are made through functions that are proved to promise all that their contracts
// say, of every input.
#![tactic(auto)]

use trial::cases::each_case;

mod as_promised;
mod calls;
mod lent;
mod lines;
mod openings;
mod plans;

// Each trial has its own `main`, and the call that they share is one line.
fn main(rt: HostRuntime) {
    each_case::<32768, _>(&rt, |line| lines::say_case(&rt, line));
}
