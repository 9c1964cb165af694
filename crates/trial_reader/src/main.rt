// Runs the reader on files that document 01 and requests 2026-03, 2026-04, 2026-13 and 2026-14 decide: a case on each line of standard input, a name and the
// file's bytes as text, so that a case more costs no proof. Prints for each its name, then `refused` with the number, or `read` with m, k, the columns, the
// six numbers d, the six limits q, and any C and T. Then the field step at some places of a file, with the bytes that it hands on. What is expected was
// computed apart from the code.
#![tactic(auto)]

mod bodies;
mod lines;
mod show;
mod steps;

fn main(rt: HostRuntime) {
    lines::say_cases(&rt);
    steps::steps(&rt);
    steps::long_steps(&rt);
    steps::longest_steps(&rt);
}
