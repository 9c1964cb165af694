// The two parts that are lent, dirty before, and the call of a case over the first entries of each.
use crate::lists;
use crate::runs::say_part;
use table_code::fill_table;
use trial::cases::Words;
use trial::lent::{Lengths, Parts};
use trial::say;
use trial_records::{dirty_parts, plan_front, say_changed, say_listed};

// The entries of a part: more than any system needs.
pub const LONG: usize = 5000;

// The most records that are lent: one more than any system has engines.
const MOST: usize = 17;

// The call of a case.
#[derive(Clone, Copy)]
pub enum Call {
    Fill,
    Plan,
    List,
}

impl From<u8> for Call {
    fn from(letter: u8) -> Call {
        match letter {
            b'f' => Call::Fill,
            b'p' => Call::Plan,
            _ => Call::List,
        }
    }
}

// The call of a case: filling alone, which answers the number of pairs; a plan, of which the text is how many records are lent, with all records after it, `=`
// for one that is as it was; or a list of calls, the text.
fn say_call(
    rt: &HostRuntime,
    call: Call,
    file: &[u8],
    text: &[u8],
    rows: &mut [u16],
    predecessors: &mut [u16],
) {
    match call {
        Call::Fill => say::say_answer(rt, fill_table(file, rows, predecessors)),
        Call::Plan => {
            let room = Words::of(text).number();
            let planned = plan_front::<MOST>(file, rows, predecessors, room);
            say_listed(rt, planned, |record| say_changed(rt, record));
        }
        Call::List => lists::say_list(rt, file, text, rows, predecessors),
    }
}

// A case over the first entries of both parts: what its call answers, and then all of both parts, also those entries that were not lent.
pub fn say_over(rt: &HostRuntime, call: Call, file: &[u8], text: &[u8], n: Lengths) {
    let mut parts: Parts<LONG> = dirty_parts();
    parts.lent(n, |rows, predecessors| {
        say_call(rt, call, file, text, rows, predecessors)
    });
    say::say(rt, b"\n");
    say_part(rt, b"  rows", &parts.rows);
    say_part(rt, b"  predecessors", &parts.predecessors);
}
