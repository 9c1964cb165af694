// The whole of a plan by value: the number and the load in each of the 16 places, of which those past the used engines are as much a part of what is handed
// out as the used ones. And the listing that is written of it, whose lines have the plan's numbers, in a buffer that held something else before.
use listing_code::write_listing;
use planner::Plan;
use system::TYPE_LIMIT;
use trial::lent::kept_from;
use trial::say;

// What every byte of the buffer of a listing holds before it is lent: no byte of a text, and not 0.
const OLD: [u8; 4096] = [170; 4096];

// A line for each place: the engine's number, its time and memory, and six counts.
pub fn say_places(rt: &HostRuntime, plan: &Plan) {
    for (number, load) in plan.numbers.iter().zip(&plan.loads) {
        say::say_also(rt, *number);
        say::say_load(rt, *load, TYPE_LIMIT);
        say::say(rt, b"\n");
    }
}

// The listing of a plan, on lines of its own.
pub fn say_lines(rt: &HostRuntime, plan: &Plan) {
    let mut out = OLD;
    let written = write_listing(&mut out, *plan);
    if kept_from(&out, &OLD, written) {
        say::say(rt, b" listing kept\n");
    } else {
        say::say(rt, b" listing CHANGED\n");
    }
    say::say(rt, &out[..written]);
}
