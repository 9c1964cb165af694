// Sheets checked against a file.
use crate::reads::front_of;
use answers_code::{JOINED_BYTES, check_read};
use buffer::put_bytes;
use system::Refusal;
use trial::say;

pub fn say_checked(rt: &HostRuntime, a: Result<bool, Refusal>) {
    match a {
        Ok(fewer) => {
            say::say(rt, b" right");
            if fewer {
                say::say(rt, b", fewer would do");
            }
        }
        Err(r) => say::say_answer(rt, Err(r)),
    }
    say::say(rt, b"\n");
}

// The check of a file and a sheet joined, of which so many bytes were read.
pub fn check_joined(file: &[u8], read: usize, out: &mut [u8; 4096]) -> usize {
    let mut joined = [0; JOINED_BYTES];
    put_bytes(&mut joined, 0, &front_of(file));
    check_read(joined, read, out)
}
