// A part of the table in few words: runs of entries that are all the same, as `2x7`, or that rise by one, as `3..9`, and a number that stands for all entries.
use trial::say;

// The runs of a part that are printed at most; the others have a part in its number alone.
const SHOWN: usize = 60;

// A run: its first and last entry and how many there are, how many runs came before it, and the number of all entries up to it.
#[derive(Clone, Copy)]
struct Run {
    first: usize,
    last: usize,
    length: usize,
    before: usize,
    number: usize,
}

// The number of some entries with one entry more.
fn mixed(number: usize, entry: u16) -> usize {
    ((number % 2147483648) * 65599 + usize::from(entry) + 1) % 2147483647
}

// An entry goes on with a run: it is the same in a run of such, or one more than the last in a run that rises. A single entry may become either.
fn goes_on(r: Run, value: usize) -> bool {
    let level = r.first == r.last;
    let rises = !level || r.length == 1;
    (level && value == r.last) || (rises && value == r.last.wrapping_add(1))
}

fn say_run(rt: &HostRuntime, r: Run) {
    if SHOWN <= r.before {
        return;
    }
    say::say_also(rt, r.first);
    if r.length == 1 {
        return;
    }
    if r.first == r.last {
        say::say(rt, b"x");
        say::say_number(rt, r.length);
    } else {
        say::say(rt, b"..");
        say::say_number(rt, r.last);
    }
}

// The run with an entry more, or a new one where it does not go on; the old one is then printed.
fn with_entry(rt: &HostRuntime, r: Run, entry: u16) -> Run {
    let value = usize::from(entry);
    let mut next = r;
    next.number = mixed(r.number, entry);
    next.last = value;
    if goes_on(r, value) {
        next.length = r.length.wrapping_add(1);
        return next;
    }
    say_run(rt, r);
    next.first = value;
    next.length = 1;
    next.before = r.before.wrapping_add(1);
    next
}

// The run of one entry.
fn run_of(entry: u16) -> Run {
    let value = usize::from(entry);
    Run {
        first: value,
        last: value,
        length: 1,
        before: 0,
        number: mixed(0, entry),
    }
}

// A line for a part: its first runs, how many there are, and the number of all its entries.
pub fn say_part(rt: &HostRuntime, name: &[u8], part: &[u16]) {
    let Some((first, rest)) = part.split_first() else {
        return;
    };
    say::say(rt, name);
    let mut run = run_of(*first);
    for entry in rest {
        run = with_entry(rt, run, *entry);
    }
    say_run(rt, run);
    say::say(rt, b" |");
    say::say_also(rt, run.before.wrapping_add(1));
    say::say_also(rt, run.number);
    say::say(rt, b"\n");
}
