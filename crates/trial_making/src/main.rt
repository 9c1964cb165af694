// Trial systems made: a case on each line of standard input, with a kind, a name, the seven numbers of a recipe, and how many bytes of the buffer are lent.
// For kind `b` the buffer is one of 6,000 bytes. Prints for each case the refusal, or how many bytes were written and these; or, for kind `l`, how buffers of
// every length are answered. Then many recipes drawn at the ends of the limits: a line with how many calls were answered in each way, and a sum over all
// bytes written. Every call is judged apart from the code: the generator goes bit by bit over arrays of 64 bits, the file is the one that crate `trial`
// makes, every byte past it is as it was lent, and what is written must read as the system that was made. What is expected was computed apart from the code,
// by a model of document 02.
#![tactic(auto)]

use trial::cases::each_case;

mod apart;
mod drawn;
mod judge;
mod lent;
mod lines;
mod sweeps;

// Each trial has its own `main`, and the call that they share is one line.
fn main(rt: HostRuntime) {
    let mut wrong: usize = 0;
    each_case::<{ lines::TEXT_BYTES }, _>(&rt, |line| {
        wrong = wrong.wrapping_add(lines::say_case(&rt, line));
    });
    sweeps::say_drawn(&rt, wrong);
}
