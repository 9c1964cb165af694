// The cases as they stand in the text, a line for each: its name, its kind, a file, how many bytes are lent of it (0s behind it), how many entries of the row
// part and of the predecessor
// part are lent, how many first entries of each part are printed, and how many may be changed, a number, and a sheet, `-` for none. The kinds stand in
// `letters`.
// Rows and predecessors go along as two slices, as the calls under test take them.
// Before a text stands whether all bytes of its buffer past those written are as they were: `kept`.
use crate::buffers::say_written;
use crate::lent::{Lent, say_over, wide_of};
use crate::letters::{Kind, Over, Text};
use crate::reads::front_of;
use crate::sheets_of::{check_joined, say_checked};
use crate::texts::{say_after, say_bytes};
use crate::told::system_told;
use crate::{boards, counts, lists, opened, plans};
use answers_code::{check_of, sheet_of, sheet_read};
use board_code::{admit, repack, seat};
use causes_code::{why_no_plan, why_no_room};
use listing_code::{listing, listing_of, listing_read};
use making::Recipe;
use making_code::make_file;
use planner_code::{plan_list, plan_of, plan_one_kind};
use recipes_code::{make_of, make_read};
use sheets_code::{check_sheet, write_sheet};
use table_code::{columns_needed, fill_table};
use tightness_code::{tight_of, tight_read};
use trial::cases::Words;
use trial::files::reading_of;
use trial::lent::{Lengths, front};
use trial::say;
use trial_records::OLD;
use wording_code::{why_of, why_read};
use writer_code::write_system;

// What a case is about: its file, what it lends, its number, and its sheet, or the words that stand there.
#[derive(Clone, Copy)]
struct Case<'a> {
    file: &'a [u8],
    lent: Lent,
    number: usize,
    sheet: &'a [u8],
    words: &'a [u8],
}

// A file made from seed 1, of system A's platform, two types and top count 3.
const MADE: Recipe = Recipe {
    seed: 1,
    engines: 3,
    rule: 0,
    timecap: 10,
    memorycap: 8,
    typecount: 2,
    top: 3,
};

// A call over two lent parts.
fn say_lent(rt: &HostRuntime, call: Over, c: Case<'_>, rows: &mut [u16], predecessors: &mut [u16]) {
    let file = c.file;
    match call {
        Over::Plan => plans::say_plan(rt, &plan_of(file, rows, predecessors)),
        Over::PlanOneKind => plans::say_plan(rt, &plan_one_kind(file, rows, predecessors)),
        Over::Fill => plans::say_answer(rt, fill_table(file, rows, predecessors)),
        Over::List => plans::say_list(rt, &plan_list(file, rows, predecessors, [OLD; 16])),
        Over::Listing => say_after(rt, b"\n", |out| listing(file, rows, predecessors, out)),
        Over::Cause => plans::say_cause(rt, why_no_plan(file, rows, predecessors)),
        Over::Into => lists::say_into(rt, file, c.number, rows, predecessors),
        Over::Sheet => say_written(rt, c.number, |buffer| {
            write_sheet(file, rows, predecessors, buffer)
        }),
        Over::Check => {
            let sheet = front(c.sheet, c.number);
            say_checked(rt, check_sheet(file, sheet, rows, predecessors));
        }
        Over::Admit => boards::say_call(rt, file, |b| admit(b, c.number, rows, predecessors)),
        Over::Seat => boards::say_call(rt, file, |b| seat(b, c.number, rows, predecessors)),
        Over::NoRoom => {
            let b = boards::say_opened(rt, file);
            plans::say_cause(rt, why_no_room(b, c.number, rows, predecessors));
        }
        Over::Repack => boards::say_call(rt, file, |b| {
            repack(boards::spread(b), rows, predecessors)
        }),
    }
}

// A call that writes a text.
fn say_text(rt: &HostRuntime, call: Text, c: Case<'_>) {
    let file = c.file;
    match call {
        Text::Listing => say_after(rt, b"\n", |out| listing_of(file, out)),
        Text::Sheet => say_bytes(rt, |out| sheet_of(file, out)),
        Text::Why => say_after(rt, b"\n", |out| why_of(file, out)),
        Text::Tight => say_after(rt, b"\n", |out| tight_of(file, out)),
        Text::Made => say_bytes(rt, |out| make_of(file, out)),
        Text::Check => say_after(
            rt,
            b" ",
            |out| check_of(file, front(c.sheet, c.number), out),
        ),
        Text::ListingRead => say_after(
            rt,
            b"\n",
            |out| listing_read(front_of(file), c.number, out),
        ),
        Text::SheetRead => say_bytes(rt, |out| sheet_read(front_of(file), c.number, out)),
        Text::WhyRead => say_after(rt, b"\n", |out| why_read(front_of(file), c.number, out)),
        Text::TightRead => say_after(rt, b"\n", |out| tight_read(front_of(file), c.number, out)),
        Text::MadeRead => say_bytes(rt, |out| make_read(front_of(file), c.number, out)),
        Text::CheckRead => say_after(rt, b" ", |out| check_joined(file, c.number, out)),
    }
}

// The call of a case, and what it leaves.
fn say_call(rt: &HostRuntime, kind: Kind, c: Case<'_>) {
    match kind {
        Kind::Columns => plans::say_answer(rt, columns_needed(c.file)),
        Kind::Opened => opened::say_opened(rt, c.file),
        Kind::Run => opened::say_run(rt, c.file, c.number),
        Kind::System => say_written(rt, c.number, |buffer| {
            write_system(reading_of(c.file).system, buffer)
        }),
        Kind::Made => say_written(rt, c.number, |buffer| make_file(MADE, buffer)),
        Kind::Counts => counts::say_counts(rt, c.file, c.lent),
        Kind::Told => {
            let told = system_told(c.words);
            say_written(rt, c.number, |buffer| write_system(told, buffer));
        }
        Kind::Text(call) => say_text(rt, call, c),
        Kind::Over(call) => say_over(rt, c.lent, |rows, predecessors| {
            say_lent(rt, call, c, rows, predecessors)
        }),
    }
}

// The numbers of what is lent: the entries of each part, how many are printed, and how many may be changed.
fn lent_in(words: &mut Words<'_>) -> Lent {
    let rows = words.number();
    let predecessors = words.number();
    let entries = Lengths { rows, predecessors };
    let shown = words.number();
    let free = words.number();
    Lent {
        entries,
        shown,
        free,
    }
}

// A case, from its line.
pub fn say_case(rt: &HostRuntime, line: &[u8]) {
    let mut words = Words::of(line);
    say::say(rt, words.word());
    say::say(rt, b":");
    let kind = Kind::from(words.letter());
    let file = wide_of(&words.bytes());
    let size = words.number();
    let lent = lent_in(&mut words);
    let number = words.number();
    let told = words.rest();
    let sheet = wide_of(&words.bytes());
    let case = Case {
        file: front(&file, size),
        lent,
        number,
        sheet: &sheet,
        words: told,
    };
    say_call(rt, kind, case);
}
