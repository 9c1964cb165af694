// Texts at the front of a buffer of 4,096 bytes that held something else before: what each call that takes a file, or bytes that were read, writes there, and
// whether all bytes past those written are as they were. So a call that clears the rest of its caller's buffer, uses it, or takes the first 0 in it for the end
// of the text is seen.
use crate::lent::say_kept;
use crate::reads::say_hex;
use trial::lent::{front, kept_from};
use trial::say;

// A buffer before it is lent: no byte of a text, and not 0.
const OLD: [u8; 4096] = [170; 4096];

// What a call writes, printed by `say_text` after a word on all bytes past those written.
fn say_written<W: FnOnce(&mut [u8; 4096]) -> usize, S: FnOnce(&[u8])>(
    rt: &HostRuntime,
    write: W,
    say_text: S,
)
    requires write { W.IsAlwaysCallable write }
    requires say_text { S.IsAlwaysCallable say_text }
{
    let mut out = OLD;
    let written = write(&mut out);
    say_kept(rt, kept_from(&out, &OLD, written));
    say_text(front(&out, written));
}

// A text after a space, or after the end of the line.
pub fn say_after<W: FnOnce(&mut [u8; 4096]) -> usize>(rt: &HostRuntime, before: &[u8], write: W)
    requires { W.IsAlwaysCallable write }
{
    say_written(rt, write, |text| {
        say::say(rt, before);
        say::say(rt, text);
    });
}

// A sheet or a made file, or the line of a refusal in its place, byte by byte.
pub fn say_bytes<W: FnOnce(&mut [u8; 4096]) -> usize>(rt: &HostRuntime, write: W)
    requires { W.IsAlwaysCallable write }
{
    say_written(rt, write, |bytes| {
        say_hex(rt, bytes);
        say::say(rt, b"\n");
    });
}
