// Lengths: of what is lent, and of files. A case on each line of standard input, so that a case more costs no proof.
// - Lengths that 8 or 16 bits do not hold, of what the calls that src/lines.rt names are lent (calls on one field and `watch_of` are not among them): parts
// of 256, 266, 65,536 and
//   65,546 entries, lists of 256 to 258 records, buffers of 65,536 bytes and more, and files and sheets with 256 or 65,536 bytes behind a right one. Most are
// of a system of
//   12 columns, or of a card of two kinds of engine with 13: a call that took a length for its last 8 or 16 bits would see 0 entries or 10, and refuse, or
// take the right
//   front for the whole, and accept.
// - The texts that these calls write, each in a buffer whose 4,096 bytes held something else before: all past those written must be as they were.
// - A file for each way not to read that refusals 1 to 10, 31, 41 and 43 name, of one kind and of two, through a plan into a list by value, which stays as it
// was, filling alone, and the columns needed.
// - Cards of two kinds that have one right plan only: placed on both kinds, on either alone, on 16 engines and on none, or refused 12; into lists and as
// listings over parts as long as the columns, and an entry short.
// - The longest files of one kind and of two, 229 and 307 bytes, a byte less, one more, and 384, 385 and 512 bytes with the file at the front; and the same
// as programs read them, with bytes behind those that were read.
// - Systems told by words, so that they may break any limit, written to buffers of 401, 4,096, 4,097 and 65,576 bytes, all longer than the longest file: one
// for each way to break each limit, and one
//   with all faults from each refusal on, in the order 7, 9, 41, 5, 6, 8, 31, 43, 10; and of those that keep them, the longest of one kind and of two, one at
// each limit, and one with junk past its
//   last type. A writer that judged the limits for short buffers only would write, and be seen.
// Printed are the answer, what is handed out, and what the lent things hold after. What is expected was computed apart from the code, by a model of documents
// 01 and 02.
#![tactic(auto)]

use trial::cases::each_case;

mod boards;
mod buffers;
mod counts;
mod lent;
mod letters;
mod lines;
mod lists;
mod opened;
mod plans;
mod reads;
mod sheets_of;
mod texts;
mod told;

// Each trial has its own `main`, and the call that they share is one line.
fn main(rt: HostRuntime) {
    each_case::<262144, _>(&rt, |line| lines::say_case(&rt, line));
}
