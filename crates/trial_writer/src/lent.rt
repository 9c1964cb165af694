// The call of the writer over a buffer of crate `trial`, of which a first part is lent; and whether it left what it must there.
use crate::judge;
use system::{Answer, Refusal, System};
use trial::buffers::{BUFFER_BYTES, kept_from, old_bytes};
use trial::files;
use trial::lent::{front, front_mut};
use writer_code::write_system;

// What a call answered, and the whole buffer after it.
#[derive(Clone, Copy)]
pub struct Call {
    pub answer: Answer,
    pub bytes: [u8; BUFFER_BYTES],
}

// Writes a system into the first `room` bytes of a buffer, all of them where it has fewer.
pub fn called(y: System, room: usize, fill: usize) -> Call {
    let mut bytes = old_bytes(fill);
    let answer = write_system(y, front_mut(&mut bytes, room));
    Call { answer, bytes }
}

// The answer is the one wanted, and so is every byte: those of the file, then those before the call; all of those where it was refused.
pub fn right_call(c: Call, y: System, room: usize, fill: usize) -> bool {
    match judge::refusal_of(&y, room) {
        Some(number) => (c.answer == Err(Refusal::Input(number))) & kept_from(c.bytes, fill, 0),
        None => {
            let f = files::file_of(y);
            (c.answer == Ok(Some(f.size)))
                & (front(&c.bytes, f.size) == f.as_slice())
                & kept_from(c.bytes, fill, f.size)
        }
    }
}
