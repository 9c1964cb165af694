// The cases as they stand in the text, a line for each: its name, its kind, a file, how many entries of the row part and of the predecessor part are lent, and
// how many records of the list. Printed are its name, what is answered, and by kind:
// - p: a plan. How many of its engines are of the second kind, what is wrong with it, `right` for nothing; the fewest engines of both kinds together and,
// among those, of the second
//   kind, over all assignments, `none` where none is good, or `untried` where they are too many; and what was changed in the parts and the list that may not
// be: `kept` for nothing;
// - f: filling alone, and what was changed in the parts;
// - c: the columns that are needed;
// - l: the listing, whole, or where it is of a plan of two kinds, what is wrong with that;
// - w: a plan by value, for which the list's records do not count. The used engines and the types that it hands out, what was changed in the parts, and then
// all of its 16 places,
//   whether an engine is used there or not; then whether `write_listing` of that plan left all bytes past those written as they were, and what it wrote. Its
// file has one right plan alone;
// - s: as p, and whether plans of the same file over parts that held other things, and into lists of 16 and 17 records, have the same answer and the same list.
use crate::judge::Fault;
use crate::lent::{Lent, MOST, over_dirty, planned_over};
use crate::{again, judge, search, text, whole};
use brute::recovery;
use planner_code::plan_of;
use system::{Answer, Refusal, System};
use table_code::{columns_needed, fill_table};
use trial::cases::Words;
use trial::files::reading_of;
use trial::lent::{Lengths, front};
use trial::say;
use trial_records::Listed;

// What is done with the file of a case.
#[derive(Clone, Copy)]
enum Kind {
    Plan,
    PlanAgain,
    Fill,
    Columns,
    Listing,
    Whole,
}

impl From<u8> for Kind {
    fn from(letter: u8) -> Kind {
        match letter {
            b'c' => Kind::Columns,
            b'f' => Kind::Fill,
            b'l' => Kind::Listing,
            b's' => Kind::PlanAgain,
            b'w' => Kind::Whole,
            _ => Kind::Plan,
        }
    }
}

// The entries of both parts from this place on must be as they were, and none before it: a refusal but 12 changes nothing.
fn free_to(y: System, answer: Answer) -> usize {
    match answer {
        Ok(_) | Err(Refusal::Input(12)) => recovery::columns_of(y),
        Err(_) => 0,
    }
}

// What may not be changed is as it was, in the parts and in the list.
fn say_kept(rt: &HostRuntime, parts: bool, list: bool) {
    match (parts, list) {
        (false, _) => say::say(rt, b" CHANGED PARTS"),
        (true, false) => say::say(rt, b" CHANGED LIST"),
        (true, true) => say::say(rt, b" kept"),
    }
}

// What is wrong with a plan.
fn say_judged(rt: &HostRuntime, judged: Result<(), Fault>) {
    match judged {
        Ok(()) => say::say(rt, b" right"),
        Err(Fault::Number) => say::say(rt, b" WRONG NUMBER"),
        Err(Fault::Nothing) => say::say(rt, b" HOLDS NOTHING"),
        Err(Fault::Sums) => say::say(rt, b" WRONG SUMS"),
        Err(Fault::Room) => say::say(rt, b" DOES NOT FIT"),
        Err(Fault::Missing) => say::say(rt, b" NOT ALL"),
    }
}

// The fewest engines over all assignments.
fn say_best(rt: &HostRuntime, y: System) {
    say::say(rt, b" fewest");
    match search::best_of(y) {
        Ok(Some(best)) => {
            say::say_also(rt, best.all);
            say::say_also(rt, best.second);
        }
        Ok(None) => say::say(rt, b" none"),
        Err(search::Untried) => say::say(rt, b" untried"),
    }
}

// A plan, where the file was read by crate `trial`.
fn say_planned(rt: &HostRuntime, y: System, listed: &Listed<MOST>) {
    let records = listed.records();
    if let Ok(Some(_)) = listed.answer {
        say::say(rt, b" second");
        say::say_also(rt, judge::second_in(y, records));
        say_judged(rt, judge::judged(y, records));
    }
    if let Ok(Some(_)) | Err(Refusal::Input(12)) = listed.answer {
        say_best(rt, y);
    }
}

// A plan, and what it left.
fn say_plan(rt: &HostRuntime, file: &[u8], n: Lent, again: bool) {
    let y = reading_of(file).system;
    let left = planned_over(file, n);
    let listed = left.answered;
    say::say_answer(rt, listed.answer);
    say_planned(rt, y, &listed);
    say_kept(
        rt,
        left.kept_from(free_to(y, listed.answer)),
        listed.later_kept(),
    );
    if again {
        again::say_same(rt, file, n, &listed);
    }
    say::say(rt, b"\n");
}

// Filling alone, and what it left.
fn say_fill(rt: &HostRuntime, file: &[u8], n: Lengths) {
    let y = reading_of(file).system;
    let left = over_dirty(n, |rows, predecessors| {
        fill_table(file, rows, predecessors)
    });
    say::say_answer(rt, left.answered);
    say_kept(rt, left.kept_from(free_to(y, left.answered)), true);
    say::say(rt, b"\n");
}

// A plan by value, whole.
fn say_whole(rt: &HostRuntime, file: &[u8], n: Lengths) {
    let y = reading_of(file).system;
    let left = over_dirty(n, |rows, predecessors| plan_of(file, rows, predecessors));
    let plan = left.answered;
    say::say_answer(rt, plan.answer);
    say::say(rt, b" used");
    say::say_also(rt, plan.used);
    say::say(rt, b" types");
    say::say_also(rt, plan.typecount);
    say_kept(rt, left.kept_from(free_to(y, plan.answer)), true);
    say::say(rt, b"\n");
    whole::say_places(rt, &plan);
    whole::say_lines(rt, &plan);
}

fn say_columns(rt: &HostRuntime, file: &[u8]) {
    say::say_answer(rt, columns_needed(file));
    say::say(rt, b"\n");
}

// A listing: whole, or judged where it is of two kinds.
fn say_listing(rt: &HostRuntime, file: &[u8]) {
    let read = reading_of(file);
    let mut out = io::buffer();
    let written = listing_code::listing_of(file, &mut out);
    let listing = front(&out, written);
    if read.refusal == 0 && read.system.second.is_some() {
        text::say_judged(rt, read.system, listing);
        say::say(rt, b"\n");
    } else {
        say::say(rt, b"\n");
        say::say(rt, listing);
    }
}

// What follows the name.
fn say_kind(rt: &HostRuntime, kind: Kind, file: &[u8], n: Lent) {
    match kind {
        Kind::Plan => say_plan(rt, file, n, false),
        Kind::PlanAgain => say_plan(rt, file, n, true),
        Kind::Fill => say_fill(rt, file, n.entries),
        Kind::Columns => say_columns(rt, file),
        Kind::Listing => say_listing(rt, file),
        Kind::Whole => say_whole(rt, file, n.entries),
    }
}

// A case, from its line.
pub fn say_case(rt: &HostRuntime, line: &[u8]) {
    let mut words = Words::of(line);
    say::say(rt, words.word());
    say::say(rt, b":");
    let kind = Kind::from(words.letter());
    let file = words.bytes();
    let rows = words.number();
    let predecessors = words.number();
    let entries = Lengths { rows, predecessors };
    let records = words.number();
    say_kind(rt, kind, file.as_slice(), Lent { entries, records });
}
