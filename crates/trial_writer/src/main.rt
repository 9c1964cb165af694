// The writer of system files at both ends of every limit: what it answers, every byte of the lent buffer, and what reads back. First named systems, a case
// on each line of standard input, so that a case more costs no proof; among them systems that are written to buffers of every length. Then many systems
// drawn: a line with how many calls were answered in each way. Every call is judged apart from the writer, its bytes are those that crate `trial` makes, and a
// system that is written must read as itself, with 0 and no q past its last type, and be written as the same bytes again; with a tag 3 of d 0 in its file, as
// the bytes without it. What is expected was computed apart from the code.
#![tactic(auto)]

use trial::cases::each_case;

mod cases;
mod drawn;
mod judge;
mod lent;
mod lines;
mod made;
mod rounds;
mod sweeps;
mod zeros;

// Each trial has its own `main`, and the call that they share is one line.
fn main(rt: HostRuntime) {
    let mut wrong: usize = 0;
    each_case::<{ cases::TEXT_BYTES }, _>(&rt, |line| {
        wrong = wrong.wrapping_add(cases::say_case(&rt, line));
    });
    sweeps::say_sweeps(&rt, wrong);
}
