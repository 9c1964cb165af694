// Many calls, each judged, and counted by what it answered.
use crate::drawn::drawn_recipe;
use crate::lent::{Call, called, right_call};
use making::Recipe;
use system::{Answer, Refusal};
use trial::buffers::BUFFER_BYTES;
use trial::lent::front;
use trial::say;

// How many calls wrote a file, how many were refused 39, 40 and 30, and how many were answered otherwise; a sum over the bytes of the files; and how many
// were wrong.
#[derive(Clone, Copy)]
struct Tally {
    answers: [usize; 5],
    sum: u64,
    wrong: usize,
}

// Where an answer is counted.
fn place_of(a: Answer) -> usize {
    match a {
        Ok(Some(_)) => 0,
        Err(Refusal::Input(39)) => 1,
        Err(Refusal::Input(40)) => 2,
        Err(Refusal::Input(30)) => 3,
        _ => 4,
    }
}

// The bytes that were written.
fn written(c: &Call<BUFFER_BYTES>) -> &[u8] {
    match c.answer {
        Ok(Some(n)) => front(&c.bytes, n),
        _ => b"",
    }
}

// The sum with the bytes of one file more: each byte after 31 times what was before.
fn summed(sum: u64, file: &[u8]) -> u64 {
    file.iter()
        .fold(sum, |sum, b| (sum % 4294967296) * 31 + u64::from(*b))
        % 4294967296
}

fn say_recipe(rt: &HostRuntime, w: Recipe) {
    say::say_also(rt, w.seed as usize);
    say::say_also(rt, w.engines);
    say::say_also(rt, w.rule as usize);
    say::say_also(rt, w.timecap as usize);
    say::say_also(rt, w.memorycap as usize);
    say::say_also(rt, w.typecount);
    say::say_also(rt, w.top as usize);
}

impl Tally {
    fn new() -> Tally {
        Tally {
            answers: [0; 5],
            sum: 0,
            wrong: 0,
        }
    }

    // One call.
    fn judge(&mut self, rt: &HostRuntime, w: Recipe, room: usize) {
        let c = called(w, room, 61);
        if let Some(n) = self.answers.get_mut(place_of(c.answer)) {
            *n = n.wrapping_add(1);
        }
        self.sum = summed(self.sum, written(&c));
        if !right_call(&c, w, room, 61) {
            say::say(rt, b"mismatch: recipe");
            say_recipe(rt, w);
            say::say_count(rt, b" buffer", room);
            self.wrong = self.wrong.wrapping_add(1);
        }
    }

    // A line for the calls; answers how many of them were wrong.
    fn say(&self, rt: &HostRuntime, name: &[u8]) -> usize {
        say::say_numbers(rt, name, &self.answers);
        say::say_count(rt, b"sum of the bytes", self.sum as usize);
        self.wrong
    }
}

// Buffers of every length from 0 to one more than the longest file.
pub fn say_lengths(rt: &HostRuntime, name: &[u8], w: Recipe) -> usize {
    let mut t = Tally::new();
    for room in 0..93 {
        t.judge(rt, w, room);
    }
    say::say(rt, name);
    t.say(rt, b":")
}

// Recipes drawn at the ends of the limits, and how many calls were wrong, among them and before them.
pub fn say_drawn(rt: &HostRuntime, wrong: usize) {
    let mut t = Tally::new();
    let mut seed = 1;
    for _ in 0..20000 {
        let d = drawn_recipe(seed);
        t.judge(rt, d.recipe, d.room);
        seed = d.seed;
    }
    let all = wrong.wrapping_add(t.say(rt, b"drawn:"));
    say::say_count(rt, b"mismatches", all);
}
