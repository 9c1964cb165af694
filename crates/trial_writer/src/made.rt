// The systems of the trial, made by the words of a case one after the other from a system of which every number is 0. A word is one of crate `trial`'s
// changes; or `plain`, a system of six types, 16 engines and 1,024 columns, whose numbers all differ; `with-d`, the same with a d for each type; `longest`,
// with a q for each type too; or `junk`, which puts the greatest numbers that there are, costs on a second kind among them, a q of 0 and a T of 0, past the
// last type; or `Mixed`, `longest` with a second kind of engine; or `timed` and `Timed`, `longest` and `Mixed` with a C and T for each type, the longest
// files that there are.
use system::{Costs, Cycle, System, TaskType};
use system_code::blank_system;
use trial::cases::Words;
use trial::changes::Change;
use trial::{changes, systems};

// A type with the greatest numbers.
const JUNK: TaskType = TaskType {
    time: 4294967295,
    memory: 4294967295,
    ceiling: 65535,
    data: 4294967295,
    most: Some(0),
    pace: Some(Cycle {
        run: 4294967295,
        period: 0,
    }),
    there: Some(Costs {
        time: 4294967295,
        memory: 4294967295,
    }),
};

// The system with such a type at every index past its last type.
fn with_junk(y: System) -> System {
    let mut z = y;
    for task in z.types.iter_mut().skip(y.typecount) {
        *task = JUNK;
    }
    z
}

// The system after a word, whose letter is a byte as in crate `trial`, which takes all others.
fn after_word(y: System, c: Change) -> System {
    match c.what {
        b'p' => systems::system_full(1),
        b'w' => systems::system_stacked(1),
        b'l' => systems::system_longest(1),
        b'j' => with_junk(y),
        b'M' => systems::system_mixed(1),
        b't' => systems::system_paced(1),
        b'T' => systems::system_mixed_paced(1),
        _ => changes::changed(y, c),
    }
}

// The system of the words up to the bar after them.
pub fn made_of(words: &mut Words) -> System {
    let mut y = blank_system();
    words.each_until(b"|", |word| y = after_word(y, changes::change_of(word)));
    y
}
