// Writes what the programs `sheet` and `sheet_check` write: the sheet of a system file, and what is said of a sheet. Crate `answers` defines it. Each table is
// the function's own, two parts of 4,096 entries, long enough for every system. The line of a refusal, with its word, is crate `listing`'s.
#![tactic(auto)]

ghost use Rattle.std.specs.Prelude.{take};
ghost use Rattle.buffer.specs.Written.{Written};
ghost use Rattle.sheets.specs.Checking.{sheet_outcome_of};
ghost use Rattle.answers.specs.Sheets.{SheetPromises, ReadPromises};
ghost use Rattle.answers.specs.Checks.{right_text, line_of, CheckPromises, JoinedPromises, ReadBothPromises};

use buffer::{least, put_bytes};
use listing_code::write_refusal;
use sheets_code::{check_sheet, write_sheet};
use system::{COLUMN_LIMIT, Cursor, FILE_BYTES, Refusal};
use system_code::{rest_at, two_bytes};

// The bytes in which a file's length stands before the file.
const LENGTH_BYTES: usize = 2;

// The most bytes of a file, and of a sheet, that are joined. They decide: what any file reads as is decided by its first 384, and no sheet of more than 389
// is right.
const PART_BYTES: usize = 4096;

// The most bytes of a file and a sheet that are joined, the file's length in front.
pub const JOINED_BYTES: usize = LENGTH_BYTES + PART_BYTES + PART_BYTES;

// Writes the sheet of a system file at the start of the buffer, or the line of a refusal, and answers how many bytes that has.
pub fn sheet_of(file: &[u8], out: &mut [u8; 4096]) -> usize
    ensures { SheetPromises file.now out.old out.new result }
{
    let mut rows = [0u16; COLUMN_LIMIT];
    let mut predecessors = [0u16; COLUMN_LIMIT];
    match write_sheet(file, &mut rows, &mut predecessors, out) {
        Ok(size) => size.unwrap_or(0),
        Err(why) => write_refusal(out, why),
    }
}

// The same for a file of which `read` bytes were read, at most `FILE_BYTES` of them. A longer file has the same answer.
pub fn sheet_read(front: [u8; FILE_BYTES], read: usize, out: &mut [u8; 4096]) -> usize
    ensures { ReadPromises front read out.old out.new result }
{
    let end = least(read, FILE_BYTES);
    sheet_of(&front[..end], out)
}

// Writes that a sheet is right, and whether fewer engines would do.
fn write_right(out: &mut [u8; 4096], fewer: bool) -> usize
    ensures { Written (right_text fewer) out.old out.new result }
{
    if fewer {
        return put_bytes(out, 0, b"right, fewer would do\n");
    }
    put_bytes(out, 0, b"right\n")
}

// Writes the line of what a check answers.
fn write_answer(out: &mut [u8; 4096], answer: Result<bool, Refusal>) -> usize
    ensures { Written (line_of (sheet_outcome_of answer)) out.old out.new result }
{
    match answer {
        Ok(fewer) => write_right(out, fewer),
        Err(why) => write_refusal(out, why),
    }
}

// Checks a sheet against its system file, and writes one line at the start of the buffer: `right`, `right, fewer would do`, or a refusal. Answers the line's
// length.
pub fn check_of(file: &[u8], sheet: &[u8], out: &mut [u8; 4096]) -> usize
    ensures { CheckPromises file.now sheet.now out.old out.new result }
{
    let mut rows = [0u16; COLUMN_LIMIT];
    let mut predecessors = [0u16; COLUMN_LIMIT];
    write_answer(out, check_sheet(file, sheet, &mut rows, &mut predecessors))
}

// The same for a file and a sheet that are joined, the file's length in front: two bytes, most significant byte first.
fn check_joined(joined: &[u8], out: &mut [u8; 4096]) -> usize
    ensures { JoinedPromises joined.now out.old out.new result }
{
    let rest = rest_at(joined, Cursor { at: LENGTH_BYTES });
    let size = least(two_bytes(joined, 0) as usize, rest.len());
    let sheet = rest_at(rest, Cursor { at: size });
    check_of(&rest[..size], sheet, out)
}

// The same for such an input of which `read` bytes were read, whatever they are. Of a longer file or a longer sheet the first `PART_BYTES` are joined; what
// is written is that of the whole two.
pub fn check_read(front: [u8; JOINED_BYTES], read: usize, out: &mut [u8; 4096]) -> usize
    ensures { ReadBothPromises front read out.old out.new result }
{
    let end = least(read, JOINED_BYTES);
    check_joined(&front[..end], out)
}
