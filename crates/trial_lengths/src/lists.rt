// A plan into the first records of a list of more than 8 bits count: the answer, the first records, and whether all later ones are as they were.
use crate::lent::say_kept;
use trial::say;
use trial_records::{OLD, plan_front, say_changed};

// The records of the list.
const MOST: usize = 258;

// The records that are printed.
const SHOWN: usize = 16;

pub fn say_into(
    rt: &HostRuntime,
    file: &[u8],
    room: usize,
    rows: &mut [u16],
    predecessors: &mut [u16],
) {
    let Some(listed) = plan_front::<MOST>(file, rows, predecessors, room) else {
        return;
    };
    say::say_answer(rt, listed.answer);
    for record in listed.list.iter().take(SHOWN) {
        say_changed(rt, record);
    }
    say_kept(
        rt,
        listed.list.iter().skip(SHOWN).all(|record| *record == OLD),
    );
    say::say(rt, b"\n");
}
