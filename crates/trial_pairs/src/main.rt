// The pairs that a fill says it tried (requests 2026-05 and 2026-10) and the entries that it leaves, against a count made one by one, over two parts that
// held anything, longer than they need to be, just long enough, and of which one is an entry too short, or both: files that are refused, systems that are
// given, and drawn ones. The number is never over the bound, and is the bound but for column 0 where no type fits. Prints the answers, the sums, and a line
// for each system whose number or entries are others. What is expected was computed apart from the code.
#![tactic(auto)]

mod cases;
mod changes;
mod count;
mod fills;
mod spreads;

fn main(rt: HostRuntime) {
    changes::say_changes(&rt);
    cases::say_cases(&rt);
    spreads::say_spreads(&rt);
}
