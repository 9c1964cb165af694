// Cards with two kinds of engine (request 2026-13), through the calls that take them: a case on each line of standard input, with a file and what is lent, so
// that
// a case more costs no proof. Which plan is given of a file of two kinds is free, and so are the first entries of the table: so each plan is judged here,
// from the
// file's bytes as crate `trial` reads them, and apart from the code under test, and every assignment of a few instances is tried. The cases: one engine of
// the second kind for two
// of the first, and the other way round; the fewest met in several ways; a kind that is of no use, and one that alone holds a type; both rules, d and q on both
// kinds; all n 0; 16 engines of 15 and 1, 1 and 15, 8 and 8; every number at its limit and past it; tags 6 and 7 in every place; 41 and its order; the order
// of 11, 15 and
// 12 at every edge; 4,096 columns; and all files and plans that were made outside this project from that request (their names start with `vector`; four of
// them have a tag 5,
// which that request did not know, and are answered as request 2026-14 says). Then the same with a C and T (2026-14), which changes no plan, 43 before 11, 15
// and 12, and all files
// that were made outside this project from that request (`run-vector`; a file is cut after 512 bytes, of which `plan` reads 384).
// Then plans by value, printed whole and as listings, of files that have one right plan only: placed on all engines of both kinds, of either kind alone, on
// 16 and on none; and refused, 12, 11, and for the file.
// Then cards that have several right plans, each planned over parts that held other things before and into lists of other lengths: the same list each time.
// Then many drawn systems, each planned over tables of several lengths, and held to the same. What is expected was computed apart from the code, by a model
// of documents 01 and 02.
#![tactic(auto)]

use trial::cases::each_case;

mod again;
mod drawn;
mod judge;
mod lent;
mod lines;
mod search;
mod text;
mod whole;

fn main(rt: HostRuntime) {
    each_case::<262144, _>(&rt, |line| lines::say_case(&rt, line));
    drawn::say_spreads(&rt);
}
