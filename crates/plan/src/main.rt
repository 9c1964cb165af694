// Program `plan`: reads a system file from standard input and writes its listing to standard output, nothing else.
#![tactic(auto)]

use front::{read_front, status_of};
use std::process::ExitCode;

// What was read is enough: what `listing_read` promises it promises of every file that begins with what was read.
fn main(rt: HostRuntime) -> ExitCode {
    let front = read_front(&rt);
    let mut out = io::buffer();
    let written = listing_code::listing_read(front.bytes, front.read, &mut out);
    status_of(rt.write_all(&out[..written]))
}
