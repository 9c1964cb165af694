// A line for a file: its name, then `refused` with the number, or `read` with m, k, the columns, the six numbers d, and the six limits q, `-`
// where one is not given; and where a type has a C and T, the six of them, `-` likewise. Of a file with two kinds of engine, which is refused 42, also what
// it reads as where two kinds may be: the same, the second kind's number, U and
// S, and the six types' u and s there, `-` where they are not given.
use system::{Refusal, System, TaskType};
use trial::say::{say, say_also};

fn say_refusal(rt: &HostRuntime, r: Refusal) {
    match r {
        Refusal::Input(n) => {
            say(rt, b" refused");
            say_also(rt, n as usize);
        }
        Refusal::State(n) => {
            say(rt, b" refused by the state");
            say_also(rt, n as usize);
        }
    }
}

// A type's q.
fn say_most(rt: &HostRuntime, t: &TaskType) {
    match t.most {
        None => say(rt, b" -"),
        Some(q) => say_also(rt, q as usize),
    }
}

// A type's C and T, or its u and s there.
fn say_two(rt: &HostRuntime, numbers: Option<(u32, u32)>) {
    match numbers {
        None => say(rt, b" -"),
        Some((first, second)) => {
            say_also(rt, first as usize);
            say_also(rt, second as usize);
        }
    }
}

// The six C and T, where there is one.
fn say_paces(rt: &HostRuntime, y: &System) {
    if y.types.iter().all(|t| t.pace.is_none()) {
        return;
    }
    say(rt, b" run");
    for t in &y.types {
        say_two(rt, t.pace.map(|c| (c.run, c.period)));
    }
}

// The six q.
fn say_mosts(rt: &HostRuntime, y: &System) {
    say(rt, b" q");
    for t in &y.types {
        say_most(rt, t);
    }
}

fn say_system(rt: &HostRuntime, y: &System) {
    say(rt, b" read");
    say_also(rt, y.engines);
    say_also(rt, y.typecount);
    say_also(rt, system_code::columns_within(y.types));
    say(rt, b" data");
    for t in &y.types {
        say_also(rt, t.data as usize);
    }
    say_mosts(rt, y);
    say_paces(rt, y);
}

// What is read of a card with two kinds; nothing where there is one.
fn say_card(rt: &HostRuntime, y: &System) {
    let Some(k) = y.second else {
        return;
    };
    say_system(rt, y);
    say(rt, b" second");
    say_also(rt, k.number);
    say_also(rt, k.timecap as usize);
    say_also(rt, k.memorycap as usize);
    say(rt, b" there");
    for t in &y.types {
        say_two(rt, t.there.map(|c| (c.time, c.memory)));
    }
}

fn say_number(rt: &HostRuntime, n: usize) {
    say(rt, b" number");
    say_also(rt, n);
}

pub fn show(rt: &HostRuntime, name: &[u8], file: &[u8]) {
    let r = system_code::read_system(file);
    say(rt, name);
    match r.answer {
        Err(x) => say_refusal(rt, x),
        Ok(Some(n)) => say_number(rt, n),
        Ok(None) => say_system(rt, &r.system),
    }
    say_card(rt, &system_code::read_card(file).system);
    say(rt, b"\n");
}
