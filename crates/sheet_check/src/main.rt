// Program `sheet_check`: reads a system file and a sheet, joined, from standard input and writes one line to standard output: `right`, `right, fewer would
// do`, or a refusal.
// They are joined as two bytes with the file's length, the file and the sheet; of a longer file or sheet its first 4,096 bytes.
#![tactic(auto)]

use front::{read_joined, status_of};
use std::process::ExitCode;

// What is read holds all that can be joined. What `check_read` promises it promises of every file and every sheet that begin with these parts, and of any
// input that begins with what was read.
fn main(rt: HostRuntime) -> ExitCode {
    let joined = read_joined(&rt);
    let mut out = io::buffer();
    let written = answers_code::check_read(joined.bytes, joined.read, &mut out);
    status_of(rt.write_all(&out[..written]))
}
