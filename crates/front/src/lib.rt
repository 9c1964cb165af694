// What the programs read of standard input: `plan`, `sheet`, `why` and `tight` of a system file, `make` of a text of numbers, `watch` of
// three numbers and a file, and `sheet_check` of a file and a sheet, joined; and the status with which they end. One function reads for all
// of them, as many bytes as it is lent room for; a program has no length to choose, as it is handed the bytes. Nothing here writes: each
// program writes its answer itself.
//
// The contracts say that the bytes counted are bytes of the buffer. No contract can say what is read: that it is all there is, at whatever
// pieces it comes in, and 0 past it, is run. `trial_front` goes on where all three sizes end, and `tests/outside` hands each program its
// input in pieces.
#![tactic(auto)]

ghost use Rattle.std.specs.Prelude.{◌≡◌, length, take, OnOk, OnErr};
ghost use Rattle.io.specs.Counts.{IsPrefixLen};
ghost use Rattle.std.specs.Process.{exit_status};

use std::io::Read;
use std::process::ExitCode;
use system::FILE_BYTES;

// What `watch` reads at most: nine bytes for its numbers, and a file as the others read it.
const WATCHED_BYTES: usize = 9 + FILE_BYTES;

// What `sheet_check` reads at most: two bytes with the length of the file, and 4,096 bytes each of the file and the sheet.
const JOINED_BYTES: usize = 2 + 4096 + 4096;

// The bytes that were read, 0 past them, and how many they are. The two stay apart: each program hands both on, as `listing_read` and its like promise of them.
#[derive(Clone, Copy)]
pub struct Front<const N: usize> {
    pub bytes: [u8; N],
    pub read: usize,
    ghost within: { IsPrefixLen read bytes },
}

// Reads until the buffer is full or the input ends, and answers how many bytes were put at its start. A read that fails is an end of the input.
// Crate trial reads by a function of its own, so that no test rests on what it tests.
fn read_into(rt: &HostRuntime, bytes: &mut [u8]) -> usize
    ensures { IsPrefixLen result bytes.new }
{
    let mut reader = rt.reader();
    let mut done = 0;
    // A read may give less than there is room for: how many reads there are is not known before.
    while done < bytes.len() {
        let n = reader.read(&mut bytes[done..]).unwrap_or(0);
        if n == 0 {
            break;
        }
        done += n;
    }
    done
}

impl<const N: usize> Front<N> {
    // Reads at most N bytes.
    fn read(rt: &HostRuntime) -> Front<N>
        ensures { IsPrefixLen result.read result.bytes × (length result.bytes ≡ N) }
    {
        let mut bytes = [0u8; N];
        let read = read_into(rt, &mut bytes);
        Front { bytes, read }
    }

    // The bytes that were read.
    pub fn as_slice(&self) -> &[u8]
        ensures { result.now ≡ take self.now.read self.now.bytes }
    {
        &self.bytes[..self.read]
    }
}

// At most 384 bytes: `plan` reads as many (02).
pub fn read_front(rt: &HostRuntime) -> Front<FILE_BYTES>
    ensures { IsPrefixLen result.read result.bytes × (length result.bytes ≡ 384) }
{
    Front::read(rt)
}

pub fn read_watched(rt: &HostRuntime) -> Front<WATCHED_BYTES>
    ensures { IsPrefixLen result.read result.bytes × (length result.bytes ≡ 393) }
{
    Front::read(rt)
}

pub fn read_joined(rt: &HostRuntime) -> Front<JOINED_BYTES>
    ensures { IsPrefixLen result.read result.bytes × (length result.bytes ≡ 8194) }
{
    Front::read(rt)
}

// The status of a program that has tried to write its answer: 0 where all of it could be written, 1 where not. It is handed how the writing
// went, not the handle, and writes nothing. What comes before it stands in each program: the function that answers takes arrays, and a bound
// `FnOnce` cannot name a const parameter (tried).
pub fn status_of(written: std::io::Result<()>) -> ExitCode
    ensures ok { OnOk written (exit_status result ≡ 0) }
    ensures err { OnErr written (exit_status result ≡ 1) }
{
    match written {
        Ok(()) => ExitCode::SUCCESS,
        Err(_) => ExitCode::FAILURE,
    }
}
