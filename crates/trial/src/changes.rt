// Systems changed by words, as cases give them: a letter, the number of a type where it is one of a type's, `=`, and a number. So `k=7` gives a
// system seven types, and `u2=1000001` its second type another u. A q of 65,536 is none. `x=`, `X=` and `Z=` give a second kind of engine so many engines, and
// its U and S; `v2=` and `z2=` the second type its u and s there; `R2=` and `P2=` its C and T, its run time and its period. What they do not give is as it
// was, or 0.
ghost use Rattle.std.specs.Prelude.{◌≡◌, ◌-◌, ◌≤◌, drop, if◌then◌else◌, nat_eq, slice_index};
ghost use Rattle.trial.specs.Words.{IsNumberOf};

use crate::cases::number_of;
use crate::lent::back;
use crate::systems;
use crate::words::byte_of;
use system::{Costs, Cycle, Kind, System, TaskType};

// The number that stands for a q that is not given, as every one past it does.
pub const NOT_GIVEN: usize = 65536;

// What a word says: its letter, the index of the type that it names, and its number.
#[derive(Clone, Copy)]
pub struct Change {
    pub what: u8,
    pub index: usize,
    pub number: usize,
}

// What a word says.
pub fn change_of(word: &[u8]) -> Change
    ensures what { result.what ≡ slice_index word.now 0 }
    ensures index { 49 ≤ slice_index word.now 1 → result.index ≡ slice_index word.now 1 - 49 }
    ensures number { IsNumberOf (drop (if nat_eq (slice_index word.now 1) 61 then 2 else 3) word.now) result.number }
{
    let second = byte_of(word, 1);
    let past = if second == b'=' { 2 } else { 3 };
    Change {
        what: byte_of(word, 0),
        index: usize::from(second).wrapping_sub(49),
        number: number_of(back(word, past)),
    }
}

// A number of four and of two bytes.
fn four(n: usize) -> u32 {
    (n % 4294967296) as u32
}

fn two(n: usize) -> u16 {
    (n % 65536) as u16
}

// The type with another number: u, s, n, d, q; C or T; or u or s on a second kind.
fn change_task(task: &mut TaskType, what: u8, n: usize) {
    match what {
        b'u' => task.time = four(n),
        b's' => task.memory = four(n),
        b'd' => task.data = four(n),
        b'q' => task.most = (n < NOT_GIVEN).then_some(two(n)),
        b'R' => {
            let c = systems::cycle_of(task.pace);
            task.pace = Some(Cycle { run: four(n), ..c });
        }
        b'P' => {
            let c = systems::cycle_of(task.pace);
            task.pace = Some(Cycle {
                period: four(n),
                ..c
            });
        }
        b'v' => {
            let c = systems::costs_of(task.there);
            task.there = Some(Costs { time: four(n), ..c });
        }
        b'z' => {
            let c = systems::costs_of(task.there);
            task.there = Some(Costs {
                memory: four(n),
                ..c
            });
        }
        _ => task.ceiling = two(n),
    }
}

// The second kind with another number: its engines, U or S.
fn changed_kind(mut kind: Kind, what: u8, n: usize) -> Kind {
    match what {
        b'x' => kind.number = n,
        b'X' => kind.timecap = four(n),
        _ => kind.memorycap = four(n),
    }
    kind
}

// The system with another number: k, m, r for the rule, U or S; u, s, n, d, q, C or T of the type at index t; or one of a second kind.
pub fn with_number(mut y: System, what: u8, t: usize, n: usize) -> System {
    match what {
        b'k' => y.typecount = n,
        b'm' => y.engines = n,
        b'r' => y.rule = (n % 256) as u8,
        b'U' => y.timecap = four(n),
        b'S' => y.memorycap = four(n),
        b'x' | b'X' | b'Z' => {
            y.second = Some(changed_kind(systems::kind_of(y.second), what, n));
        }
        _ => return systems::with_task(y, t, |task| change_task(task, what, n)),
    }
    y
}

// The system as a word changes it.
pub fn changed(y: System, c: Change) -> System {
    with_number(y, c.what, c.index, c.number)
}
