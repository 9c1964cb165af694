// Example: a system file made from numbers. A program of your own can begin as a copy of this one.
// It is proved like everything here, and needs no proof file: `write_system` has no `requires`, and there is no loop.
#![tactic(auto)]

use system::{Refusal, System, TaskType};
use system_code::{blank_system, no_task};
use writer_code::write_system;

// Writes the file of a system to standard output. A system outside the limits gets its refusal, on standard error.
fn main(rt: HostRuntime) {
    // A system of six types, each with data memory, a q, C and T, and costs on a second kind of engine, has a file of 307 bytes. A buffer that is too short
    // is refused 30.
    let mut file = [0u8; 307];
    match write_system(first_system(), &mut file) {
        Ok(Some(n)) => write_first(&rt, &file, n),
        Ok(None) => {}
        Err(why) => say_refusal(&rt, why),
    }
}

// Three engines with time 10 and memory 8, and two types. Type t is at index t - 1; what stands past the last type is not looked at.
fn first_system() -> System {
    let mut y = blank_system();
    y.engines = 3;
    y.rule = 0; // each instance has its own copy of the code
    y.timecap = 10;
    y.memorycap = 8;
    y.typecount = 2;
    y.types[0] = task(4, 3, 3);
    y.types[1] = task(3, 2, 2);
    y
}

// A type: the time and the memory that an instance takes, and how many of it a plan places. Its data memory stays 0 and it has no q, no C and no T, as
// `no_task` has it.
fn task(time: u32, memory: u32, ceiling: u16) -> TaskType {
    TaskType {
        time,
        memory,
        ceiling,
        ..no_task()
    }
}

// The first n bytes of a buffer: the file is as long as the answer says, and what stands past it is no part of it.
fn write_first(rt: &HostRuntime, buffer: &[u8], n: usize) {
    if let Some(file) = buffer.get(..n) {
        let _ = rt.write_all(file);
    }
}

// One line. The writer refuses from the input only.
fn say_refusal(rt: &HostRuntime, why: Refusal) {
    let (Refusal::Input(n) | Refusal::State(n)) = why;
    let _ = eprintln!(rt; "refused {n}");
}
