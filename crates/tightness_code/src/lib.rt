// Writes the line that program `tight` writes for a system file: how many of all assignments are good, as `good 1050 of 2187`, or a refusal.
// Crate `tightness` defines it. The line of a refusal, with its word, is crate `listing`'s. No literal here holds one of the words that the listing keeps in
// its one string.
#![tactic(auto)]

ghost use Rattle.buffer.specs.Written.{Written};
ghost use Rattle.tightness.specs.Line.{count_line, answer_line};
ghost use Rattle.tightness.specs.Meaning.{TightPromises, ReadPromises};

use buffer::{least, put_bytes};
use counting::Counts;
use counting_code::count_assignments;
use listing_code::{put_number, write_refusal};
use system::{COLUMN_LIMIT, FILE_BYTES, Refusal};

// The entries that are enough to count for every system: two for each column.
const PART_LIMIT: usize = 2 * COLUMN_LIMIT;

// Writes the line of two numbers.
fn write_counts(out: &mut [u8; 4096], good: u64, total: u64) -> usize
    ensures { Written (count_line good total) out.old out.new result }
{
    let named = put_bytes(out, 0, b"good ");
    let told = put_number(out, named, good);
    let parted = put_bytes(out, told, b" of ");
    let all = put_number(out, parted, total);
    put_bytes(out, all, b"\n")
}

// Writes the line of an answer.
fn write_answer(out: &mut [u8; 4096], answer: Result<Counts, Refusal>) -> usize
    ensures { Written (answer_line answer) out.old out.new result }
{
    match answer {
        Ok(c) => write_counts(out, c.good, c.total),
        Err(why) => write_refusal(out, why),
    }
}

// Writes the line of a system file at the start of the buffer, and answers its length. The part of 64-bit numbers is the function's own and long enough for
// every system.
pub fn tight_of(file: &[u8], out: &mut [u8; 4096]) -> usize
    ensures { TightPromises file.now out.old out.new result }
{
    let mut part = [0u64; PART_LIMIT];
    write_answer(out, count_assignments(file, &mut part))
}

// The same for a file of which `read` bytes were read, at most `FILE_BYTES` of them. A longer file has the same line.
pub fn tight_read(front: [u8; FILE_BYTES], read: usize, out: &mut [u8; 4096]) -> usize
    ensures { ReadPromises front read out.old out.new result }
{
    let end = least(read, FILE_BYTES);
    tight_of(&front[..end], out)
}
