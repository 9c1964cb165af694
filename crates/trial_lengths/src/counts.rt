// The number of good assignments, over the first entries of a part of 64-bit numbers.
use crate::lent::{LONG, Lent, say_kept};
use counting_code::count_assignments;
use trial::lent::{front_mut, kept_from};
use trial::say;

// The part before it is lent.
const OLD: [u64; LONG] = [77; LONG];

pub fn say_counts(rt: &HostRuntime, file: &[u8], n: Lent) {
    let mut part = OLD;
    match count_assignments(file, front_mut(&mut part, n.entries.rows)) {
        Ok(c) => {
            say::say(rt, b" good");
            say::say_also(rt, c.good as usize);
            say::say(rt, b" of");
            say::say_also(rt, c.total as usize);
        }
        Err(r) => say::say_answer(rt, Err(r)),
    }
    say_kept(rt, kept_from(&part, &OLD, n.free));
    say::say(rt, b"\n");
}
