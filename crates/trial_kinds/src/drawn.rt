// Drawn systems of two kinds of engine, each planned over a table and a list that are just long enough, longer, or an entry short, and held to the judge and
// to the search.
use crate::lent::{Lent, planned_over};
use crate::search::Engines;
use crate::{judge, search};
use brute::recovery;
use system::{Refusal, System};
use trial::lent::Lengths;
use trial::{files, say, spread};

// How many systems were tried, planned, planned with an engine of the second kind, with engines of both kinds; and how many answers were wrong.
#[derive(Clone, Copy, Default)]
struct Tally {
    tried: usize,
    planned: usize,
    second: usize,
    both: usize,
    wrong: usize,
}

// A plan over so much answers as it should: refused with this number, and nothing changed from `free` on.
fn refused_so(file: &[u8], n: Lent, number: u8, free: usize) -> bool {
    let left = planned_over(file, n);
    let listed = left.answered;
    listed.answer == Err(Refusal::Input(number)) && left.kept_from(free) && listed.later_kept()
}

// The plan over so much is right, and as good as the best of all assignments.
fn planned_so(y: System, file: &[u8], n: Lent, best: Engines, columns: usize) -> bool {
    let left = planned_over(file, n);
    let listed = left.answered;
    let records = listed.records();
    listed.answer == Ok(Some(best.all))
        && judge::second_in(y, records) == best.second
        && judge::judged(y, records).is_ok()
        && listed.later_kept()
        && left.kept_from(columns)
}

// What is lent: so many entries of each part, and records.
fn lent_so(rows: usize, predecessors: usize, records: usize) -> Lent {
    let entries = Lengths { rows, predecessors };
    Lent { entries, records }
}

// The answer over a table and a list that are long enough: the best plan, or 12.
fn right_over(y: System, file: &[u8], n: Lent, best: Option<Engines>, columns: usize) -> bool {
    match best {
        Some(engines) => planned_so(y, file, n, engines, columns),
        None => refused_so(file, n, 12, columns),
    }
}

// All lengths: just enough, more, and either part or the list one short. 11 comes before 15, and 15 before 12.
fn right_all(y: System, file: &[u8], best: Option<Engines>) -> bool {
    let columns = recovery::columns_of(y);
    let engines = judge::engines_in(y);
    let less = columns.wrapping_sub(1);
    let fewer = engines.wrapping_sub(1);
    right_over(y, file, lent_so(columns, columns, engines), best, columns)
        && right_over(y, file, lent_so(4200, columns, 17), best, columns)
        && refused_so(file, lent_so(less, columns, engines), 11, 0)
        && refused_so(file, lent_so(columns, less, fewer), 11, 0)
        && refused_so(file, lent_so(columns, columns, fewer), 15, 0)
}

impl Tally {
    // One system more, whose best plan uses these engines.
    fn count(&mut self, best: Option<Engines>, right: bool) {
        let second = best.is_some_and(|engines| engines.second != 0);
        let first = best.is_some_and(|engines| engines.second < engines.all);
        self.tried = self.tried.wrapping_add(1);
        self.planned = self.planned.wrapping_add(usize::from(best.is_some()));
        self.second = self.second.wrapping_add(usize::from(second));
        self.both = self.both.wrapping_add(usize::from(first && second));
        self.wrong = self.wrong.wrapping_add(usize::from(!right));
    }
}

fn try_system(rt: &HostRuntime, tally: &mut Tally, y: System) {
    let f = files::file_of(y);
    let best = search::best_of(y).ok().flatten();
    let right = right_all(y, f.as_slice(), best);
    if !right {
        say::say_system(rt, b"mismatch:", y);
    }
    tally.count(best, right);
}

// So many systems of k types.
fn spread_of(rt: &HostRuntime, first: u64, engines: usize, k: usize, most: usize) -> Tally {
    let mut tally = Tally::default();
    let mut seed = first;
    for _ in 0..1000 {
        let drawn = spread::drawn_mixed(seed, engines, k, most);
        try_system(rt, &mut tally, drawn.system);
        seed = drawn.seed;
    }
    tally
}

// A line of a spread: the systems tried, planned, planned with an engine of the second kind, with engines of both, and answered wrongly.
fn say_spread(rt: &HostRuntime, name: &[u8], t: Tally) {
    let numbers = [t.tried, t.planned, t.second, t.both, t.wrong];
    say::say_numbers(rt, name, &numbers);
}

pub fn say_spreads(rt: &HostRuntime) {
    say::say(
        rt,
        b"drawn: tried, planned, with an engine of the second kind, with engines of both, wrong\n",
    );
    say_spread(rt, b"one type, up to 4 engines:", spread_of(rt, 1, 4, 1, 6));
    say_spread(
        rt,
        b"two types, up to 4 engines:",
        spread_of(rt, 2, 4, 2, 3),
    );
    say_spread(
        rt,
        b"three types, up to 4 engines:",
        spread_of(rt, 3, 4, 3, 2),
    );
    say_spread(
        rt,
        b"six types, up to 3 engines:",
        spread_of(rt, 4, 3, 6, 1),
    );
    say_spread(
        rt,
        b"two types, up to 8 engines:",
        spread_of(rt, 5, 8, 2, 2),
    );
}
