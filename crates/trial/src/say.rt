// Lines on standard output, and answers as numbers. A line that could not be written is left out.
// What only prints, as `say_numbers`, has no contract: no clause can name what standard output was given.
use crate::lent::front;
use loads::EngineLoad;
use system::{Answer, Refusal, System, TaskType};

// An answer as one number: 0 accepted; 100 and more refused from the input, 200 and more from the state, with the refusal's number;
// 1,000 and more accepted with a number.
pub fn code_of(a: Answer) -> usize {
    match a {
        Ok(None) => 0,
        Ok(Some(n)) => n.wrapping_add(1000),
        Err(Refusal::Input(n)) => 100 + usize::from(n),
        Err(Refusal::State(n)) => 200 + usize::from(n),
    }
}

// An answer in document 01's words.
pub fn say_answer(rt: &HostRuntime, a: Answer) {
    let _ = match a {
        Ok(None) => print!(rt; " accepted"),
        Ok(Some(n)) => print!(rt; " accepted {n}"),
        Err(Refusal::Input(n)) => print!(rt; " refused {n} from the input"),
        Err(Refusal::State(n)) => print!(rt; " refused {n} from the state"),
    };
}

pub fn say(rt: &HostRuntime, text: &[u8]) {
    let _ = rt.write_all(text);
}

pub fn say_number(rt: &HostRuntime, n: usize) {
    let _ = rt.print(n);
}

// A byte as two hexadecimal digits.
pub fn say_hex(rt: &HostRuntime, b: u8) {
    let _ = print!(rt; "{b:02x}");
}

// A number after a space.
pub fn say_also(rt: &HostRuntime, n: usize) {
    let _ = print!(rt; " {n}");
}

// A line of a name and a number.
pub fn say_count(rt: &HostRuntime, name: &[u8], n: usize) {
    say_numbers(rt, name, &[n]);
}

// A line of a name and numbers.
pub fn say_numbers(rt: &HostRuntime, name: &[u8], numbers: &[usize]) {
    say(rt, name);
    for n in numbers {
        say_also(rt, *n);
    }
    say(rt, b"\n");
}

// What an engine holds: its time, memory and the counts of the first types.
pub fn say_load(rt: &HostRuntime, l: EngineLoad, typecount: usize) {
    let _ = print!(rt; " | {} {}", l.time, l.memory);
    for count in front(&l.counts, typecount) {
        let _ = print!(rt; " {count}");
    }
}

// A type's u, s, n and d, its q, its C and T, and its u and s on the second kind.
fn say_task(rt: &HostRuntime, t: &TaskType) {
    let _ = print!(rt; " | {} {} {} {}", t.time, t.memory, t.ceiling, t.data);
    if let Some(q) = t.most {
        let _ = print!(rt; " q {q}");
    }
    if let Some(c) = t.pace {
        let _ = print!(rt; " pace {} {}", c.run, c.period);
    }
    if let Some(c) = t.there {
        let _ = print!(rt; " there {} {}", c.time, c.memory);
    }
}

// A line for a system: m, rule, U, S, any second kind, then each type.
pub fn say_system(rt: &HostRuntime, name: &[u8], y: System) {
    say(rt, name);
    let _ = print!(rt; " {} {} {} {}", y.engines, y.rule, y.timecap, y.memorycap);
    if let Some(k) = y.second {
        let _ = print!(rt; " second {} {} {}", k.number, k.timecap, k.memorycap);
    }
    for task in front(&y.types, y.typecount) {
        say_task(rt, task);
    }
    say(rt, b"\n");
}
