// Writes the line that program `why` writes for a system file: `placed`, the cause for which it has no plan, in words and with its number, or a refusal.
// Crate `wording` defines it. The line of a refusal, with its word, is crate `listing`'s. No literal here holds one of the words that the listing keeps in its
// one string, so that memory is called storage.
#![tactic(auto)]

ghost use Rattle.buffer.specs.Written.{Written};
ghost use Rattle.wording.specs.Line.{type_line, cause_line, answer_line};
ghost use Rattle.wording.specs.Meaning.{WhyPromises, ReadPromises};

use buffer::{least, put_bytes};
use causes::Cause;
use causes_code::why_no_plan;
use listing_code::{put_number, write_refusal};
use system::{COLUMN_LIMIT, FILE_BYTES, Refusal};

// Writes the line of a type of which not even one instance fits an empty engine.
fn write_type(out: &mut [u8; 4096], t: usize) -> usize
    ensures { Written (type_line t) out.old out.new result }
{
    let named = put_bytes(out, 0, b"cause 2: type ");
    let told = put_number(out, named, t as u64);
    put_bytes(out, told, b" fits nowhere\n")
}

// Writes the line of a cause.
fn write_cause(out: &mut [u8; 4096], cause: Cause) -> usize
    ensures { Written (cause_line cause) out.old out.new result }
{
    match cause {
        Cause::Possible => put_bytes(out, 0, b"placed\n"),
        Cause::NoEngine => put_bytes(out, 0, b"cause 1: nothing is in service\n"),
        Cause::OneTooLarge(t) => write_type(out, t),
        Cause::TooMuchTime => put_bytes(out, 0, b"cause 3: too much time in all\n"),
        Cause::TooMuchMemory => put_bytes(out, 0, b"cause 4: too much storage in all\n"),
        Cause::TooManyReplicas => {
            put_bytes(out, 0, b"cause 5: too many of one type for its q\n")
        }
        Cause::NoArrangement => {
            put_bytes(out, 0, b"cause 6: enough in all, but no arrangement fits\n")
        }
    }
}

// Writes the line of an answer.
fn write_answer(out: &mut [u8; 4096], answer: Result<Cause, Refusal>) -> usize
    ensures { Written (answer_line answer) out.old out.new result }
{
    match answer {
        Ok(cause) => write_cause(out, cause),
        Err(why) => write_refusal(out, why),
    }
}

// Writes the line of a system file at the start of the buffer, and answers its length. Both parts of the table are the function's own and long enough for
// every system.
pub fn why_of(file: &[u8], out: &mut [u8; 4096]) -> usize
    ensures { WhyPromises file.now out.old out.new result }
{
    let mut rows = [0u16; COLUMN_LIMIT];
    let mut predecessors = [0u16; COLUMN_LIMIT];
    write_answer(out, why_no_plan(file, &mut rows, &mut predecessors))
}

// The same for a file of which `read` bytes were read, at most `FILE_BYTES` of them. A longer file has the same line.
pub fn why_read(front: [u8; FILE_BYTES], read: usize, out: &mut [u8; 4096]) -> usize
    ensures { ReadPromises front read out.old out.new result }
{
    let end = least(read, FILE_BYTES);
    why_of(&front[..end], out)
}
