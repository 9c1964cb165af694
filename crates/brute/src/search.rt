// Every assignment of a few single instances to a few engines, tried one after the other, with sums over single instances.
use loads::Sums;
use std::array;
use system::{System, TYPE_LIMIT};

// The most engines that are tried.
const ENGINES: usize = 4;

// What an engine holds while instances are placed one by one.
#[derive(Clone, Copy)]
struct Engine {
    time: u64,
    memory: u64,
    counts: [u16; TYPE_LIMIT],
}

impl Engine {
    // One instance more of the type at index t. It brings its data memory; under rule 0 its own code too, under rule 1 only the first of its type does.
    fn place(&mut self, y: System, t: usize) {
        if t < TYPE_LIMIT {
            let task = y.types[t];
            if (y.rule == 0) | (self.counts[t] == 0) {
                self.memory = self.memory.wrapping_add(u64::from(task.memory));
            }
            self.memory = self.memory.wrapping_add(u64::from(task.data));
            self.time = self.time.wrapping_add(u64::from(task.time));
            self.counts[t] = self.counts[t].wrapping_add(1);
        }
    }

    // It is within its time and memory, and holds no more of a type than its q.
    fn good(&self, y: System) -> bool {
        (self.time <= u64::from(y.timecap))
            & (self.memory <= u64::from(y.memorycap))
            & self
                .counts
                .iter()
                .zip(&y.types)
                .all(|(count, task)| task.most.map_or(true, |q| *count <= q))
    }
}

// Six counts as eight digits, the last two 0.
pub fn digits_of(counts: [u16; TYPE_LIMIT]) -> [usize; 8] {
    let mut digits = [0; 8];
    for (digit, count) in digits.iter_mut().zip(counts) {
        *digit = usize::from(count);
    }
    digits
}

// The next number of eight digits, digit i below bases[i], the first digit moving fastest; None after the largest.
pub fn counted_up(mut digits: [usize; 8], bases: [usize; 8]) -> Option<[usize; 8]> {
    for (i, base) in bases.iter().enumerate() {
        digits[i] = digits[i].wrapping_add(1);
        if digits[i] < *base {
            return Some(digits);
        }
        digits[i] = 0;
    }
    None
}

// The type, counted from 0, of single instance j, where those of type 1 come first; none where there are fewer.
pub fn kind_of(load: [usize; 8], j: usize) -> Option<usize> {
    let mut passed: usize = 0;
    for (t, count) in load.iter().take(TYPE_LIMIT).enumerate() {
        passed = passed.wrapping_add(*count);
        if j < passed {
            return Some(t);
        }
    }
    None
}

// The types of the first eight single instances.
pub fn kinds_of(load: [usize; 8]) -> [Option<usize>; 8] {
    array::from_fn(|j| kind_of(load, j))
}

// What the engines hold under an assignment: instance j is on engines[j].
fn holding(y: System, kinds: [Option<usize>; 8], engines: [usize; 8]) -> [Engine; ENGINES] {
    let mut held = [Engine {
        time: 0,
        memory: 0,
        counts: [0; TYPE_LIMIT],
    }; ENGINES];
    for (kind, e) in kinds.iter().zip(engines) {
        if let Some(t) = *kind {
            if let Some(engine) = held.get_mut(e) {
                engine.place(y, t);
            }
        }
    }
    held
}

// The used engines of an assignment, where it is good.
fn used_by(y: System, kinds: [Option<usize>; 8], engines: [usize; 8]) -> Option<usize> {
    let held = holding(y, kinds, engines);
    if !held.iter().all(|engine| engine.good(y)) {
        return None;
    }
    Some(
        held.iter()
            .filter(|engine| engine.counts != [0; TYPE_LIMIT])
            .count(),
    )
}

// The least of two, where there are two.
pub fn least<T: Ord + Copy>(a: Option<T>, b: Option<T>) -> Option<T> {
    match (a, b) {
        (Some(one), Some(other)) => Some(one.min(other)),
        (one, other) => one.or(other),
    }
}

// The fewest used engines of a good assignment of the load to this many engines, by trying all of them: at most 4 to the 8th.
fn fewest_tried(y: System, load: [usize; 8], engines: usize) -> Option<usize> {
    let kinds = kinds_of(load);
    // One digit for each instance, below the number of engines; the others stay 0.
    let bases = kinds.map(|kind| if kind.is_some() { engines } else { 1 });
    let mut digits = [0; 8];
    let mut best = None;
    for _ in 0..65536usize {
        best = least(best, used_by(y, kinds, digits));
        let Some(next) = counted_up(digits, bases) else {
            return best;
        };
        digits = next;
    }
    best
}

// The same for any number of instances and engines. None where no assignment is good, and where there are more than eight instances or four engines: these
// are not tried.
pub fn fewest_on(y: System, load: [usize; 8], engines: usize) -> Option<usize> {
    if kind_of(load, 0).is_none() {
        return Some(0);
    }
    if (engines == 0) | (ENGINES < engines) | kind_of(load, 8).is_some() {
        return None;
    }
    fewest_tried(y, load, engines)
}

// The fewest used engines of a good assignment of these instances to the system's engines.
pub fn fewest(y: System, counts: [u16; TYPE_LIMIT]) -> Option<usize> {
    fewest_on(y, digits_of(counts), y.engines)
}

// The time and memory of a load on one engine, instance by instance.
pub fn sums_of(y: System, load: [usize; 8]) -> Sums {
    let held = holding(y, kinds_of(load), [0; 8]);
    Sums {
        time: held[0].time,
        memory: held[0].memory,
    }
}

// The load fits one engine.
pub fn fits_one(y: System, load: [usize; 8]) -> bool {
    used_by(y, kinds_of(load), [0; 8]).is_some()
}
