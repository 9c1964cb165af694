// The cases as they stand in the text, each with a kind, a file, how many entries of the row part and of the predecessor part are lent, and a text to the
// line's end:
// - o: a file at a limit or one past it, of m and rule, U and S, u, s and d, n and the columns, q, C and T; the text is its name;
// - p: a plan by value and into a list, and filling alone, of systems at the limits, then of those that d alone decides, and q alone; over parts of more than
// 5,000
//   entries; and of a file that gives C and T, which answers as it does without them;
// - c: a list of calls, the text. First one engine that has nothing, and a type that costs nothing; then
//   sixteen engines that take one instance each, a type 1,023 and 4,095 times, and six types, each admitted until a newcomer finds an engine only by a seat;
//   the same where d fills the memory, and where only a q fills the board. Last engines out of service: the only one, with and without an instance,
//   while column 0 alone has a row; sixteen withdrawn one by one from the first on and put back from the last on; the last in service, which takes
//   what it can before another is put back; the first, one between and the last of sixteen; and an instance that costs nothing and keeps its engine. At the
// end 4,096
//   columns; some of these lists over parts of more than 5,000 entries; and three from files that give C and T, which answer as they do without them.
use crate::{calls, openings, plans};
use trial::cases::Words;
use trial::lent::Lengths;

// A case, from its line.
pub fn say_case(rt: &HostRuntime, line: &[u8]) {
    let mut words = Words::of(line);
    let kind = words.letter();
    let file = words.bytes();
    let rows = words.number();
    let predecessors = words.number();
    let lent = Lengths { rows, predecessors };
    // The letter chooses here and nowhere else: an enum of three would say it twice more.
    match kind {
        b'o' => openings::say_opening(rt, words.rest(), file.as_slice()),
        b'p' => plans::say_ways(rt, file.as_slice(), lent),
        _ => calls::say_script(rt, file.as_slice(), lent, words.rest()),
    }
}
