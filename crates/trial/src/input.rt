// What a test program reads of standard input.
ghost use Rattle.std.specs.Prelude.{◌≤◌, length};

use std::io::Read;

// Reads until the buffer is full or the input ends, and answers how many bytes were put at its start. A read that fails is an end of the input.
pub fn read_full(rt: &HostRuntime, bytes: &mut [u8]) -> usize
    ensures { result ≤ length bytes.new }
{
    let mut reader = rt.reader();
    let mut done = 0;
    while done < bytes.len() {
        let n = reader.read(&mut bytes[done..]).unwrap_or(0);
        if n == 0 {
            break;
        }
        done += n;
    }
    done
}
