// Boards that are not true, one for each way that document 01's row of refusal 20 names, with numbers far past every limit among
// them, and those that are false by data memory, by a q or by a mark: each of the six calls must refuse 20, and hand back the board and both
// parts of the table as they were. Before them true boards, with what the six calls answer, and whether those that take the number of a type or an engine
// refuse 257, 65,537 and
// 4,294,967,297, which are 1 in 8, 16 and 32 bits, with the board and the table as they were. Each line has what `true_board` says: `untrue` exactly where
// the calls are refused 20. A
// board on each line of standard input, so that a board more costs no proof; a line for each board.
#![tactic(auto)]

use trial::cases::each_case;

mod boards;
mod calls;
mod lines;

// Each trial has its own `main`, and the call that they share is one line.
fn main(rt: HostRuntime) {
    each_case::<16384, _>(&rt, |line| lines::say_case(&rt, line));
}
