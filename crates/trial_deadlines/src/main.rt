// The run of an engine (request 2026-14): a case on each line of standard input, with a name, what is asked, the bytes of a system file and seven numbers, so
// that a
// case more costs no proof. Each run is made twice: by the call, and by a list of single jobs that is searched in each tick, written apart from the code
// under test, with the refusals of the file as crate `trial` reads it. Printed is what the call answers, and whether the list says the same.
// The cases: misses at the first tick, in the middle, at the last tick's end and one tick past it; work left over at the last tick; harmonic periods and
// co-prime ones; engines that are never idle, and one tick of work more; no instance, no tick; every number at its limit and past it; many equal deadlines;
// counts
// over n and q, and more than fits; the order of all refusals; plans of both rules, of which every engine is run; and all runs that were made outside this
// project from that request (their names start with `vector`). What is expected was computed apart from the code: misses by the work that is due by each
// instant, idle ticks by the work that has come and not been done, whosever it is, and plans by document 01's recovery.
#![tactic(auto)]

use trial::cases::each_case;

mod apart;
mod calls;
mod jobs;
mod lines;

// The bytes of the text that are read at most.
const TEXT_BYTES: usize = 131072;

// Each trial has its own `main`, and the call that they share is one line.
fn main(rt: HostRuntime) {
    each_case::<TEXT_BYTES, _>(&rt, |line| lines::say_case(&rt, line));
}
