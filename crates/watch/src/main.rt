// Program `watch`: reads the number of an engine, a number of ticks, the first tick to show and a system file from standard input, and writes the run of that
// engine of the file's plan to standard output; or one line, a refusal or `no such number`.
#![tactic(auto)]

use front::{read_watched, status_of};
use std::process::ExitCode;
use timeline_code::WATCH_BYTES;

// What was read is enough: what `watch_read` promises it promises of every input that begins with what was read.
fn main(rt: HostRuntime) -> ExitCode {
    let front = read_watched(&rt);
    let mut out = [0u8; WATCH_BYTES];
    let written = timeline_code::watch_read(front.bytes, front.read, &mut out);
    status_of(rt.write_all(&out[..written]))
}
