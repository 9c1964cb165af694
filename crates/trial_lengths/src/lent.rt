// The two parts that are lent, and the bytes of a file or a sheet with 0s behind them.
use trial::lent::{Lengths, Parts};
use trial::say;
use trial::words::{Bytes, CASE_BYTES};

// The entries of a part: more than 16 bits count, and then ten.
pub const LONG: usize = 65546;

// Both parts before they are lent: no row, no column and not 65,535.
const OLD: Parts<LONG> = Parts {
    rows: [50000; LONG],
    predecessors: [50000; LONG],
};

// The bytes of a file or a sheet with those behind it.
const WIDE_BYTES: usize = 66048;

// How many entries of each part are lent, how many of each are printed, and how many may be changed.
#[derive(Clone, Copy)]
pub struct Lent {
    pub entries: Lengths,
    pub shown: usize,
    pub free: usize,
}

// Bytes, and 0s behind them.
pub fn wide_of(given: &Bytes) -> [u8; WIDE_BYTES] {
    let mut bytes = [0; WIDE_BYTES];
    bytes[..CASE_BYTES].copy_from_slice(&given.bytes);
    bytes
}

// The first entries of a part, at most 16.
fn say_entries(rt: &HostRuntime, name: &[u8], part: &[u16], shown: usize) {
    say::say(rt, name);
    for entry in part.iter().take(shown.min(16)) {
        say::say_also(rt, usize::from(*entry));
    }
}

// A call over the first entries of both parts, and what they hold after it.
pub fn say_over<F: FnOnce(&mut [u16], &mut [u16])>(rt: &HostRuntime, n: Lent, say_call: F)
    requires { F.IsAlwaysCallable say_call }
{
    let mut parts = OLD;
    parts.lent(n.entries, say_call);
    say_entries(rt, b"  rows", &parts.rows, n.shown);
    say_entries(rt, b"  predecessors", &parts.predecessors, n.shown);
    say::say(rt, b" ");
    say_kept(rt, parts.kept_from(&OLD, n.free));
    say::say(rt, b"\n");
}

// Whether what may not be changed is as it was.
pub fn say_kept(rt: &HostRuntime, kept: bool) {
    say::say(rt, if kept { b" kept" } else { b" CHANGED" });
}
