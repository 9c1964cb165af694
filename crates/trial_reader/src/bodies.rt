// The bytes of a field's body, in a line of the trial: all of them as digits where they are at most 64; of a longer body the first four, the last four, and a
// sum over all.
use trial::say::{say, say_also, say_hex};

// The bytes of the longest body that is written out.
const SHOWN_BYTES: usize = 64;

// All bytes, two digits for each.
fn say_bytes(rt: &HostRuntime, bytes: &[u8]) {
    for b in bytes {
        say_hex(rt, *b);
    }
}

// The sum of all bytes, each times its place counted from the end, the last one's being 1: so a byte that stands at another place changes it. A byte is added
// to `seen` at its place, and with `seen` to the sum there and at each place after it.
fn sum_by_place(bytes: &[u8]) -> usize {
    let mut seen: usize = 0;
    let mut sum: usize = 0;
    for b in bytes {
        seen = seen.wrapping_add(*b as usize);
        sum = sum.wrapping_add(seen);
    }
    sum
}

// A body's bytes, nothing where it has none.
pub fn say_body(rt: &HostRuntime, body: &[u8]) {
    let size = body.len();
    if size == 0 {
        return;
    }
    say(rt, b" bytes ");
    if size <= SHOWN_BYTES {
        say_bytes(rt, body);
        return;
    }
    say_bytes(rt, &body[..4]);
    say(rt, b"..");
    say_bytes(rt, &body[size - 4..]);
    say(rt, b" sum");
    say_also(rt, sum_by_place(body));
}
