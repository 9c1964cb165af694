// A file at a limit or past it: what opening, planning and filling answer, and how many entries each part must have.
use crate::as_promised::open_board;
use crate::lent::OLD;
use planner_code::plan_of;
use table_code::{columns_needed, fill_table};
use trial::say;

pub fn say_opening(rt: &HostRuntime, name: &[u8], file: &[u8]) {
    let mut parts = OLD;
    say::say(rt, name);
    say::say_answer(rt, open_board(file).answer);
    say::say_answer(
        rt,
        plan_of(file, &mut parts.rows, &mut parts.predecessors).answer,
    );
    say::say_answer(
        rt,
        fill_table(file, &mut parts.rows, &mut parts.predecessors),
    );
    say::say_answer(rt, columns_needed(file));
    say::say(rt, b"\n");
}
