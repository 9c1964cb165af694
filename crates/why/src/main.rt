// Program `why`: reads a system file from standard input and writes one line to standard output: `placed`, the cause for which it has no plan, or a refusal.
#![tactic(auto)]

use front::{read_front, status_of};
use std::process::ExitCode;

// What was read is enough: what `why_read` promises it promises of every file that begins with what was read.
fn main(rt: HostRuntime) -> ExitCode {
    let front = read_front(&rt);
    let mut out = io::buffer();
    let written = wording_code::why_read(front.bytes, front.read, &mut out);
    status_of(rt.write_all(&out[..written]))
}
