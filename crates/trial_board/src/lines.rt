// The lists of calls as they stand in the text, two lines for each: l, or c for one whose filled tables are compared cell by cell, a file, and a name to the
// line's end; then the calls. They come in groups:
// - `W9`: document 01's cases;
// - `shared`: one engine that four of type 1, with s 5 and d 3, just fill; type 2 has s 1 and d 2. Under rule 1 a retire frees d, 3, so that the first
//   of type 2 just fits; only the last of type 1 frees s too. `own`: under rule 0 every instance brings and takes both;
// - `vector one` to `five`: lists that were made outside this project from document 01 and request 2026-03, with their answers;
// - `by time`, `by memory`: two engines with the time, or the memory, for a type 1 and a type 2 each, or for two of type 2. A type 1 stands on engine 1
//   and two of type 2 on engine 2, which has no room for another: a second type 1 goes to engine 1, or by q to none of them, and then only by a seat;
// - `free`: six instances that cost nothing, so that all are on one engine but for a q: no room by q alone, until one retires; a q of one less than n,
//   of n, and far above it. `a firewall twice`: two of a type on different engines, though they would share its code on one;
// - `vector six`, `seven`: made outside this project from request 2026-04;
// - `middle out`: document 01's W9 and W10 on engines 1 and 3 of three, where engine 2 is out of service between them; `first out`, `last out`: the lowest
//   row is then not on engine 1, and no row is on engine 3; `no room for want of engine 2`: system B takes one instance on each engine, and there is
//   room again when the engine is back; `all out`: nothing can come, a repack of nothing is accepted, and all is well when one is back;
// - `refused 14, 35, 36`; `an instance that costs nothing`, which keeps its engine from being withdrawn; `q 1`, `q 2`, which hold on each engine in service;
// - `vector eight` to `twelve`: made outside this project from request 2026-07;
// - `C and T`: four of these again, from files that give some types a C and T (request 2026-14). Nothing is answered otherwise, and the board keeps them.
use crate::scripts::say_list;
use trial::cases::{Words, each_case};
use trial::say::say;
use trial::words::Bytes;

// The bytes of the text that are read at most.
const TEXT_BYTES: usize = 32768;

// What the first line of a list gives beside its name: its file, and whether every cell is compared, which says nothing of the file.
#[derive(Clone, Copy)]
struct Head {
    file: Bytes,
    cells: bool,
}

// The first line of a list, whose name is printed.
fn head_of(rt: &HostRuntime, line: &[u8]) -> Head {
    let mut words = Words::of(line);
    let cells = words.letter() == b'c';
    let file = words.bytes();
    say(rt, words.rest());
    Head { file, cells }
}

// All lists of the text.
pub fn say_cases(rt: &HostRuntime) {
    let mut head: Option<Head> = None;
    each_case::<TEXT_BYTES, _>(rt, |line| match head.take() {
        None => head = Some(head_of(rt, line)),
        Some(h) => say_list(rt, h.file.as_slice(), line, h.cells),
    });
}
