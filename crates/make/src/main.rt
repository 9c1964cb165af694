// Program `make`: reads seven numbers from standard input and writes the file of the system that they make to standard output; or one line, a refusal or `not
// seven numbers`.
#![tactic(auto)]

use front::{read_front, status_of};
use std::process::ExitCode;

// What was read is enough: `make_read` promises the answer of every text that is shorter than what is read at most, and that any other is not seven numbers.
fn main(rt: HostRuntime) -> ExitCode {
    let front = read_front(&rt);
    let mut out = io::buffer();
    let written = recipes_code::make_read(front.bytes, front.read, &mut out);
    status_of(rt.write_all(&out[..written]))
}
