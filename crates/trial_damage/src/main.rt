// Files of 39 to 307 bytes, some with two kinds of engine and some with a C and T, cut at every place, and with every value at every byte: the reader against
// the one of crate `trial`. A file that is read must give its system, and be the file of it where no tag 3 gives a d of 0; a refused one hands out the system
// of no types and no engines that crate `trial` has written out. Where one kind of engine is wanted, the same is answered, but 42 and that system of a file
// with two.
#![tactic(auto)]

ghost use Rattle.std.specs.Prelude.{◌<◌};

use system::{Costs, Cycle, Opened, Refusal, System};
use system_code::{read_card, read_system};
use trial::buffers::BUFFER_BYTES;
use trial::files::{File, Reading};
use trial::lent::front;
use trial::{files, say, systems};

// A type with every number but n at its limit.
fn with_limits(y: System, ceiling: u16) -> System {
    let z = systems::with_data(systems::with_type(y, 1000000, 1000000, ceiling), 1000000);
    systems::with_most(z, 65535)
}

// Every number at its limit, so that most damage passes one.
fn at_limits() -> System {
    with_limits(
        with_limits(systems::platform_of(16, 1, 1000000, 1000000), 63),
        63,
    )
}

// System A with small numbers for d, which one byte makes 0.
fn a_with_data() -> System {
    let one = systems::with_task(systems::system_a(3), 0, |task| task.data = 1);
    systems::with_data(one, 65536)
}

// System A with small numbers for q, which one byte makes 0.
fn a_with_most() -> System {
    let one = systems::with_most_at(systems::system_a(3), 0, Some(1));
    systems::with_most(one, 256)
}

// System A with a second kind of engine, as document 01's, and costs there.
fn a_with_kinds() -> System {
    let none = systems::with_second(systems::system_a(3), 1, 10, 8);
    let one = systems::with_there_at(none, 0, Some(Costs { time: 4, memory: 3 }));
    systems::with_there(one, 65536, 2)
}

// The system with a C and T of its two types: of the first just as much of T as u is of U, 4 of 10, and of the second a little less.
fn with_two_paces(y: System) -> System {
    let one = systems::with_pace_at(y, 0, Some(Cycle { run: 2, period: 5 }));
    systems::with_pace_at(
        one,
        1,
        Some(Cycle {
            run: 1,
            period: 256,
        }),
    )
}

// What a refusal answers and hands out: the system with nothing in it.
fn refused(number: usize) -> Opened {
    Opened {
        answer: Err(Refusal::Input((number % 256) as u8)),
        system: systems::no_system(),
    }
}

// What must be answered to a file that reads like this.
fn opened(wanted: &Reading) -> Opened {
    match wanted.refusal {
        0 => Opened {
            answer: Ok(None),
            system: wanted.system,
        },
        number => refused(number),
    }
}

// The same where one kind is wanted: 42 where there are two.
fn opened_as_one(wanted: &Reading) -> Opened {
    if (wanted.refusal == 0) & wanted.system.second.is_some() {
        refused(42)
    } else {
        opened(wanted)
    }
}

// A file that is read is that of its system, where no tag 3 gives a d of 0.
fn right_file(file: &[u8], wanted: &Reading) -> bool {
    let f = files::file_of(wanted.system);
    (wanted.refusal != 0) | wanted.zero | (f.as_slice() == file)
}

// How many files were read, at 0, and refused with each number; and how many answers were wrong.
#[derive(Clone, Copy)]
struct Tally {
    answers: [usize; 44],
    wrong: usize,
}

impl Tally {
    fn new() -> Tally {
        Tally {
            answers: [0; 44],
            wrong: 0,
        }
    }

    // One file, read by both.
    fn judge(&mut self, rt: &HostRuntime, file: &[u8]) {
        let wanted = files::reading_of(file);
        let read = read_card(file);
        let right = (read == opened(&wanted)) & (read_system(file) == opened_as_one(&wanted));
        if right & right_file(file, &wanted) {
            if let Some(n) = self.answers.get_mut(wanted.refusal) {
                *n = n.wrapping_add(1);
            }
        } else {
            say::say_count(rt, b"mismatch: answered", say::code_of(read.answer));
            say::say_count(rt, b"wanted", wanted.refusal);
            self.wrong = self.wrong.wrapping_add(1);
        }
    }

    // Each part from the front, none and the whole file among them.
    fn judge_cuts(&mut self, rt: &HostRuntime, file: &[u8]) {
        for n in 0..=file.len() {
            self.judge(rt, &file[..n]);
        }
    }

    // Every value at one place.
    fn judge_place(&mut self, rt: &HostRuntime, f: &File, at: usize)
        requires { at < 400 }
    {
        let mut bytes = f.bytes;
        for value in 0..=255 {
            bytes[at] = value;
            self.judge(rt, front(&bytes, f.size));
        }
    }

    // A line for the files: how many were read, and refused 1 to 10 and 31.
    fn say(&self, rt: &HostRuntime, name: &[u8]) {
        let n = &self.answers;
        let row = [
            n[0], n[1], n[2], n[3], n[4], n[5], n[6], n[7], n[8], n[9], n[10], n[31],
        ];
        say::say_numbers(rt, name, &row);
    }
}

fn cuts(rt: &HostRuntime, f: &File) -> Tally {
    let mut t = Tally::new();
    t.judge_cuts(rt, f.as_slice());
    t
}

// Every value at every place.
fn changes(rt: &HostRuntime, f: &File) -> Tally {
    let mut t = Tally::new();
    for at in 0..f.size.min(BUFFER_BYTES) {
        t.judge_place(rt, f, at);
    }
    t
}

// The lines of a file, with how many answers were wrong. Of a file with two kinds or a C and T also how many were refused 41 and 43.
fn say_damage(rt: &HostRuntime, name: &[u8], y: System) -> usize {
    let f = files::file_of(y);
    let t = cuts(rt, &f);
    let u = changes(rt, &f);
    say::say(rt, name);
    t.say(rt, b" cut:");
    say::say(rt, name);
    u.say(rt, b" changed:");
    if y.second.is_some() | y.types.iter().any(|task| task.pace.is_some()) {
        let unpaired = t.answers[41].wrapping_add(u.answers[41]);
        let unpaced = t.answers[43].wrapping_add(u.answers[43]);
        say::say(rt, name);
        say::say_numbers(rt, b", refused 41 and 43:", &[unpaired, unpaced]);
    }
    t.wrong.wrapping_add(u.wrong)
}

fn main(rt: HostRuntime) {
    say::say(&rt, b"files: read, refused 1 to 10, 31\n");
    let paced = with_two_paces(systems::system_a(3));
    let both = with_two_paces(a_with_kinds());
    let wrong = [
        say_damage(&rt, b"A", systems::system_a(3)),
        say_damage(&rt, b"A with d", a_with_data()),
        say_damage(&rt, b"A with q", a_with_most()),
        say_damage(&rt, b"limits", at_limits()),
        say_damage(&rt, b"longest", systems::system_longest(1)),
        say_damage(&rt, b"A with two kinds", a_with_kinds()),
        say_damage(&rt, b"longest with two kinds", systems::system_mixed(1)),
        say_damage(&rt, b"A with C and T", paced),
        say_damage(&rt, b"A with two kinds, C and T", both),
        say_damage(&rt, b"longest with C and T", systems::system_paced(1)),
        say_damage(
            &rt,
            b"longest with two kinds, C and T",
            systems::system_mixed_paced(1),
        ),
    ];
    let all = wrong.iter().fold(0usize, |all, n| all.wrapping_add(*n));
    say::say_count(&rt, b"mismatches", all);
}
