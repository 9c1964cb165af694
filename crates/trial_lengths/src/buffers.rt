// Sheets, system files and made files in the first bytes of a buffer: what is answered, the bytes written, and whether all bytes past them are as they were.
// A system that is to be written is one that a file reads as, or one told by words, which may break any limit: the reading of a file ends where a limit is
// broken, with none of the types after that.
use crate::lent::say_kept;
use crate::reads::say_hex;
use system::Answer;
use trial::lent::{front, front_mut, kept_from};
use trial::say;

// The bytes of the buffer: more than 16 bits count, and then 40.
const LONG: usize = 65576;

// The buffer before it is lent.
const OLD: [u8; LONG] = [170; LONG];

// What is written into the first bytes of a buffer, or all where it has fewer.
pub fn say_written<F: FnOnce(&mut [u8]) -> Answer>(rt: &HostRuntime, room: usize, write: F)
    requires { F.IsAlwaysCallable write }
{
    let mut buffer = OLD;
    let answer = write(front_mut(&mut buffer, room));
    let written = answer.ok().flatten().unwrap_or(0);
    say::say_answer(rt, answer);
    say_hex(rt, front(&buffer, written));
    say_kept(rt, kept_from(&buffer, &OLD, written));
    say::say(rt, b"\n");
}
