// A board as its bytes say it: m, rule, U, S, k; six types of u, s, n, d, a byte that tells whether q is given, and q; sixteen marks; and sixteen engines of
// time, memory and six counts; then a byte that tells whether there is a second kind of engine, its number, U and S; a byte with a bit for each type that has
// costs
// there, that of type 1 the lowest, and the u and s there of them all; and likewise a byte with a bit for each type that has a C and T, and the C and T of
// them all. Bytes that are
// missing at the end are 0.
use board::Board;
use loads::EngineLoad;
use std::array;
use system::{Costs, Cycle, Kind, System, TaskType};

// What is left of the bytes of a board; past their end all are 0. Numbers have their most significant byte first.
#[derive(Clone, Copy)]
struct Numbers<'a> {
    rest: &'a [u8],
}

impl<'a> Numbers<'a> {
    fn byte(&mut self) -> u8 {
        let Some((first, rest)) = self.rest.split_first() else {
            return 0;
        };
        self.rest = rest;
        *first
    }

    fn flag(&mut self) -> bool {
        self.byte() != 0
    }

    fn two(&mut self) -> u16 {
        u16::from_be_bytes([self.byte(), self.byte()])
    }

    fn four(&mut self) -> u32 {
        u32::from_be_bytes([self.byte(), self.byte(), self.byte(), self.byte()])
    }

    // A type, with no costs on a second kind and no C and T.
    fn task(&mut self) -> TaskType {
        let time = self.four();
        let memory = self.four();
        let ceiling = self.two();
        let data = self.four();
        let given = self.flag();
        let most = self.two();
        TaskType {
            time,
            memory,
            ceiling,
            data,
            most: given.then_some(most),
            pace: None,
            there: None,
        }
    }

    fn system(&mut self) -> System {
        System {
            engines: usize::from(self.byte()),
            rule: self.byte(),
            timecap: self.four(),
            memorycap: self.four(),
            typecount: usize::from(self.byte()),
            types: array::from_fn(|_| self.task()),
            second: None,
        }
    }

    fn load(&mut self) -> EngineLoad {
        EngineLoad {
            time: self.four(),
            memory: self.four(),
            counts: array::from_fn(|_| self.two()),
        }
    }

    fn kind(&mut self) -> Kind {
        Kind {
            number: usize::from(self.byte()),
            timecap: self.four(),
            memorycap: self.four(),
        }
    }

    fn costs(&mut self) -> Costs {
        Costs {
            time: self.four(),
            memory: self.four(),
        }
    }

    fn cycle(&mut self) -> Cycle {
        Cycle {
            run: self.four(),
            period: self.four(),
        }
    }
}

// The types for which `change` is made: those whose bit is set, that of type 1 the lowest.
fn change_those<F: FnMut(&mut TaskType)>(types: &mut [TaskType], flags: u8, mut change: F)
    requires { F.IsAlwaysCallable change }
{
    let mut left = flags;
    for task in types.iter_mut() {
        if left % 2 == 1 {
            change(task);
        }
        left /= 2;
    }
}

// The board of these bytes.
pub fn board_in(bytes: &[u8]) -> Board {
    let mut numbers = Numbers { rest: bytes };
    let mut system = numbers.system();
    let marks = array::from_fn(|_| numbers.flag());
    let loads = array::from_fn(|_| numbers.load());
    let given = numbers.flag();
    let second = numbers.kind();
    system.second = given.then_some(second);
    let there = numbers.byte();
    let costs = numbers.costs();
    change_those(&mut system.types, there, |task| task.there = Some(costs));
    let paced = numbers.byte();
    let cycle = numbers.cycle();
    change_those(&mut system.types, paced, |task| task.pace = Some(cycle));
    Board {
        system,
        loads,
        marks,
    }
}
