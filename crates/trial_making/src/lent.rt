// The call over a buffer of N bytes, of which a first part is lent; and whether it left what it must there.
ghost use Rattle.making.specs.Meaning.{MakePromises};

use crate::{apart, judge};
use making::Recipe;
use making_code::make_file;
use std::array;
use system::{Answer, Refusal, System};
use system_code::read_system;
use trial::buffers::old_byte;
use trial::files;
use trial::lent::{front, front_mut, kept_from};

// What a call answered, and the whole buffer after it.
#[derive(Clone, Copy)]
pub struct Call<const N: usize> {
    pub answer: Answer,
    pub bytes: [u8; N],
}

// The call with all that it promises, of every recipe and every buffer: a contract that said it of some alone would not prove this.
fn as_promised(w: Recipe, out: &mut [u8]) -> Answer
    ensures { MakePromises w out.old out.new result }
{
    make_file(w, out)
}

// The buffer before a call.
fn old_buffer<const N: usize>(fill: usize) -> [u8; N] {
    array::from_fn(|i| old_byte(fill, i))
}

// Makes a file in the first `room` bytes of a buffer, all of them where it has fewer.
pub fn called<const N: usize>(w: Recipe, room: usize, fill: usize) -> Call<N> {
    let mut bytes = old_buffer::<N>(fill);
    let answer = as_promised(w, front_mut(&mut bytes, room));
    Call { answer, bytes }
}

// A file reads as this system.
fn reads_as(file: &[u8], y: System) -> bool {
    let read = read_system(file);
    (read.answer == Ok(None)) & (read.system == y)
}

// The answer is the one wanted, and so is every byte: those of the file, which reads as the system that is made apart, then those before the call; all of
// those where it was refused.
pub fn right_call<const N: usize>(c: &Call<N>, w: Recipe, room: usize, fill: usize) -> bool {
    let old = old_buffer::<N>(fill);
    match judge::refusal_of(w, room) {
        Some(number) => { (c.answer == Err(Refusal::Input(number))) & kept_from(&c.bytes, &old, 0) }
        None => {
            let y = apart::system_of(w);
            let f = files::file_of(y);
            let made = front(&c.bytes, f.size);
            (c.answer == Ok(Some(f.size)))
                & (made == f.as_slice())
                & kept_from(&c.bytes, &old, f.size)
                & reads_as(made, y)
        }
    }
}
