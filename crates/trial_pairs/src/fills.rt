// What a fill answers, and leaves in two parts that held anything and are lent in several lengths, against the number and the entries counted one by one.
use crate::count;
use crate::count::Count;
use brute::search;
use system::{Answer, Refusal, System, TYPE_LIMIT};
use table_code::fill_table;
use trial::lent::{Lengths, Parts, front};
use trial::{files, say};

// The entries of the longest part: more than any system needs.
pub const LONG: usize = 4200;

// What a fill answered, and both parts after it.
#[derive(Clone, Copy)]
pub struct Filled {
    pub answer: Answer,
    parts: Parts<LONG>,
}

// What the fills of a system came to: whether every answer and every entry was right, the number, the bound, whether no type fits, whether the number is
// the bound but for column 0, which is never tried, and whether it is one for each other column. The flags are counted one by one, and none has a value beside.
#[derive(Clone, Copy)]
pub struct Trial {
    pub right: bool,
    pub pairs: usize,
    pub bound: usize,
    pub none: bool,
    pub met: bool,
    pub least: bool,
}

// Two parts that hold `old` everywhere, or what another file left there.
pub fn parts_after(other: &[u8], old: u16) -> Parts<LONG> {
    let mut parts = Parts {
        rows: [old; LONG],
        predecessors: [old; LONG],
    };
    let _ = fill_table(other, &mut parts.rows, &mut parts.predecessors);
    parts
}

pub fn lengths(rows: usize, predecessors: usize) -> Lengths {
    Lengths { rows, predecessors }
}

// A fill over the first entries of two parts: what is left in all of them.
pub fn filled_over(file: &[u8], before: &Parts<LONG>, n: Lengths) -> Filled {
    let mut parts = *before;
    let answer = parts.lent(n, |rows, predecessors| fill_table(file, rows, predecessors));
    Filled { answer, parts }
}

// Both parts are as they were counted below the columns.
fn right_parts(want: &Count, after: &Parts<LONG>) -> bool {
    let columns = want.columns();
    let rows = front(&after.rows, columns.len());
    let predecessors = front(&after.predecessors, columns.len());
    rows.iter().zip(columns).all(|(held, c)| *held == c.row)
        & predecessors
            .iter()
            .zip(columns)
            .all(|(held, c)| *held == c.predecessor)
}

// A fill over parts that are long enough: the number of pairs, and every entry of both parts.
fn right_fill(file: &[u8], want: &Count, before: &Parts<LONG>, n: Lengths) -> bool {
    let f = filled_over(file, before, n);
    (f.answer == Ok(Some(want.tried)))
        & right_parts(want, &f.parts)
        & f.parts.kept_from(before, want.columns().len())
}

// A fill over parts of which one is too short or both are: refused 11, every entry as it was.
fn right_short(file: &[u8], before: &Parts<LONG>, n: Lengths) -> bool {
    let f = filled_over(file, before, n);
    (f.answer == Err(Refusal::Input(11))) & f.parts.kept_from(before, 0)
}

// Over parts of 0 that are longer than needed, over ones of 65,535 that another file was filled in and that are just long enough, and over ones that this
// file was filled in, of which either is an entry longer.
fn right_fills(file: &[u8], other: &[u8], want: &Count) -> bool {
    let just = want.columns().len();
    let more = just.wrapping_add(1);
    right_fill(file, want, &parts_after(b"", 0), lengths(LONG, LONG))
        & right_fill(file, want, &parts_after(other, 65535), lengths(just, just))
        & right_fill(file, want, &parts_after(file, 7), lengths(more, just))
        & right_fill(file, want, &parts_after(file, 1), lengths(just, more))
}

// With an entry less in one part, however long the other is, or in both.
fn right_shorts(file: &[u8], other: &[u8], just: usize) -> bool {
    let less = just.wrapping_sub(1);
    right_short(file, &parts_after(other, 0), lengths(less, just))
        & right_short(file, &parts_after(other, 7), lengths(just, less))
        & right_short(file, &parts_after(file, 9), lengths(less, less))
        & right_short(file, &parts_after(b"", 1), lengths(less, LONG))
        & right_short(file, &parts_after(b"", 2), lengths(LONG, less))
}

// Of no type that has instances does one fit an empty engine.
fn none_fits(y: System) -> bool {
    (0..TYPE_LIMIT).all(|t| {
        let mut load: [usize; 8] = [0; 8];
        load[t] = 1;
        (y.types[t].ceiling == 0) || !search::fits_one(y, load)
    })
}

// The fills of a system, over parts that another system left.
pub fn trial_of(y: System, other: System) -> Trial {
    let f = files::file_of(y);
    let g = files::file_of(other);
    let file = f.as_slice();
    let left = g.as_slice();
    let want = count::count_of(y);
    let columns = want.columns().len();
    let long = filled_over(file, &parts_after(left, 3), lengths(LONG, LONG));
    // An answer without a number comes to more pairs than any system has: it is not taken for 0.
    let pairs = say::code_of(long.answer).wrapping_sub(1000);
    let bound = count::bound_of(y) as usize;
    let none = none_fits(y);
    let met = pairs.wrapping_add(y.engines) == bound;
    let filled = right_fills(file, left, &want) & right_shorts(file, left, columns);
    Trial {
        right: filled & (long.answer == Ok(Some(want.tried))) & (pairs <= bound) & (!none | met),
        pairs,
        bound,
        none,
        met,
        least: pairs.wrapping_add(1) == columns,
    }
}
