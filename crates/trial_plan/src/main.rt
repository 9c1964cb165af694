// The plan, by value and into a list, and filling alone, against the brute search, over two dirty parts that are longer than they need to
// be, just long enough, and of which one is an entry too short, or both: cases that are given, every small system of one type, and a spread of systems of two
// to six types, with
// data memory and with limits q on one engine. Prints a line for each case, the counts of each spread, and a line for each system that is
// planned otherwise than the search says.
#![tactic(auto)]

mod cases;
mod right;
mod spreads;

fn main(rt: HostRuntime) {
    cases::say_cases(&rt);
    spreads::say_spreads(&rt);
}
