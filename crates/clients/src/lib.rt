// Each call that users make, once more: reading, writing and making files, filling, planning, listing and checking, the board's calls, causes, counts and
// runs, and what the programs write;
// with them `blank_system`, `no_task`, `true_board` and `cause_number`, which whoever makes a system or a board by hand or reads a cause needs. Each is a
// function of the call's signature that asks
// nothing of its caller, promises for every input all that the call is to promise, and does nothing but call it. What is public for other crates alone, as
// `put_number` of listing, does
// not stand here. For whoever changes a library: a contract that is narrowed together with its code, to files of one kind, to the first bytes of an input or
// to parts of some length, is
// still met by that code, and where no proof needs the rest nothing else would see it. It is not enough to prove the function here.
//
// So that a promise which is narrowed in its own definition is seen too, what is easily narrowed stands here a second time (specs/Wide), beside the
// definitions that the contracts
// cite: where 11, 12 and 15 are said, how much of an input counts, and that no length is cut; where 13 and 14 are said, and that no number is cut; and of a
// call that writes a text, what the
// bytes in the buffer tell, and that those past them are as they were.
#![tactic(auto)]

mod boards;
mod files;
mod plans;
mod programs;
mod texts;
