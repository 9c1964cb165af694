// The six calls against a ledger over brute search: document 01's cases W9 to W12, lists of calls that show what data memory an admit
// takes and a retire frees, what a q leaves room for and what passes over an engine out of service, and lists made outside this project,
// with the answers that they give, all on standard input, so that a list more costs no proof; then many drawn lists of calls, over dirty
// tables, the same table again, and tables of which one part is too short, or both. After every call the answer, the board with its marks and the table are
// compared. Prints the final board of each list that is given, the counts of the drawn ones, and a line for each call that is answered
// otherwise.
#![tactic(auto)]

mod drawn;
mod lines;
mod live;
mod scripts;
mod shown;

fn main(rt: HostRuntime) {
    lines::say_cases(&rt);
    drawn::say_drawn(&rt);
    drawn::say_drawn_marks(&rt);
}
