// The cases as they stand in the text, a word for each part, and a line for each.
ghost use Rattle.std.specs.Prelude.{◌≤◌};

use crate::lent::{Call, called, right_call};
use crate::sweeps;
use making::Recipe;
use trial::buffers::BUFFER_BYTES;
use trial::cases::Words;
use trial::lent::front;
use trial::say::{say, say_answer, say_hex};

// The bytes of the text that are read at most.
pub const TEXT_BYTES: usize = 32768;

// The bytes of the longer buffer.
const LONG: usize = 6000;

// What tells the bytes that stand in a buffer before a call.
const FILL: usize = 33;

// The recipe of a case, in the order of its words: seed, m, rule, U, S, k, g.
fn recipe_in(words: &mut Words) -> Recipe {
    Recipe {
        seed: words.number() as u64,
        engines: words.number(),
        rule: (words.number() % 256) as u8,
        timecap: (words.number() % 4294967296) as u32,
        memorycap: (words.number() % 4294967296) as u32,
        typecount: words.number(),
        top: words.number() as u64,
    }
}

// One call: what was answered, the bytes that it says were written, and that it is wrong where it is. Answers how many were wrong.
fn say_call<const N: usize>(rt: &HostRuntime, name: &[u8], w: Recipe, room: usize) -> usize
    requires { N ≤ 6000 }
{
    let c: Call<N> = called(w, room, FILL);
    say(rt, name);
    say(rt, b":");
    say_answer(rt, c.answer);
    if let Ok(Some(n)) = c.answer {
        say(rt, b" ");
        for b in front(&c.bytes, n) {
            say_hex(rt, *b);
        }
    }
    let right = right_call(&c, w, room, FILL);
    say(rt, if right { b"\n" } else { b" wrong\n" });
    usize::from(!right)
}

// A case: its kind, its name, its recipe, and the bytes lent. Answers how many calls were wrong.
pub fn say_case(rt: &HostRuntime, line: &[u8]) -> usize {
    let mut words = Words::of(line);
    let kind = words.letter();
    let name = words.word();
    let recipe = recipe_in(&mut words);
    let room = words.number();
    // The letter chooses here and nowhere else: an enum of three would say it twice more.
    match kind {
        b'l' => sweeps::say_lengths(rt, name, recipe),
        b'b' => say_call::<LONG>(rt, name, recipe, room),
        _ => say_call::<BUFFER_BYTES>(rt, name, recipe, room),
    }
}
