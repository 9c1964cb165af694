// The cases as they stand in the text, a line for each: t for a true board or f for a false one, the words that make it, which are told in `boards`, a bar,
// and a name to the line's end. They come in groups:
// - `sound`: the boards that the others are made from. On the first two calls are refused 21; engine 1 holds something on each but the last;
// - `q 2 where two stand`: true boards at exactly q, which is of each engine and not of the board;
// - `engine 1 marked`: true boards with marks, at both ends of the engines and on all of them. An admit passes over engines that are marked; with none in
//   service it is refused 24, and so is a seat, but not a repack of nothing;
// - `columns 1,025`, `columns 4,096`: true boards with as many columns as a system may have, and with more than it might before request 2026-10;
// - `k 0`: false by the system, with numbers far past every limit;
// - `65,535 of each type`: false by a load. The sums of the first are those that it has modulo 2^32;
// - `d past k`: data memory that is not a file's, that the stored memory leaves out or charges otherwise, or that does not fit;
// - `q 0`: a q of 0, of a type or past them, and any q past them; `q 1 where two stand`: one more than q on an engine;
// - `a mark at m + 1`: a mark on an engine that the system does not have; `engine 1 marked, holds two`: on one that holds an instance, with the sums of
//   its load; `marked, time 1`: on one that holds nothing, with a stored time or memory;
// - `C and T of type 1`: true boards with a C and T; `C and T: C 0`: false by one, of a type or past them.
use crate::boards::Made;
use crate::calls;
use trial::cases::Words;

// A case, from its line.
pub fn say_case(rt: &HostRuntime, line: &[u8]) {
    let mut words = Words::of(line);
    let sound = words.letter() == b't';
    let mut made = Made::blank();
    words.each_until(b"|", |word| made.tell(word));
    if sound {
        calls::say_true(rt, words.rest(), made.board);
    } else {
        calls::say_board(rt, words.rest(), made.board);
    }
}
