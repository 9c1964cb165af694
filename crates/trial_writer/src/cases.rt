// The cases as they stand in the text, a line for each: a kind, the words that make a system, which are told in `made`, a bar, and a name to the line's end.
// The name is printed, and after it by kind:
// - t: nothing more;
// - c, s: what a call of the writer with a buffer that is long enough answers, or with one of 12, which is too short for any file;
// - d, q, C, T and the number of a type: the same for five d, q, C or T of that type, from no d to the greatest, from a q of 0 to none, and from 0 to the
//   greatest;
// - f: what is answered, and the file's bytes;
// - z and the number of a type: what comes back of the file with a tag 3 of d 0 after that type; e: after each type that has no d;
// - b, a: the bytes of that file; and of what is read from it and written again;
// - l: how buffers of every length up to 164 are answered; m: up to 242, for files with two kinds of engine; n: up to 308, for files with a C and T;
// - r and a number: what a call with a buffer of so many bytes answers, and the file's bytes where it is written.
// They come in groups: each number at its limit, past it, and at what is within it if its upper bytes are dropped, then the columns, of which 65,536 to the
// 4th is 0 in 64 bits, and to the 6th too. Each two refusals, the one that is asked first before the other; no system calls for both 7 and 9: its k is then
// 7, and for 9 and 10 the great n stands past k. A d that is over its limit beside each refusal, and at both ends in each type. Junk past the last type.
// Whole files. Files with a d of 0. A q of 0 beside each refusal, and before an 8 in a later type: 8 is asked of all types before 31 is of any. A q at both
// ends in each type, and above n. Then junk, files and a d of 0 again, with a q; and buffers of every length. At last systems with two kinds of engine: 41,
// which comes after 7 and 9 and before 5; the numbers of the second kind and the costs there at their limits; junk past the last type; whole files; and all
// systems that were made outside this project from request 2026-13 (their names start with `vector`). And then all this with a C and T: 43, which comes after
// every 31 and before 10; C, T, u and U at both ends of what it lets through; in each type, and past the last one; whole files; buffers of every length; and
// all systems that were made outside this project from request 2026-14 (their names start with `run-vector`).
// A letter stands for one call of the match below alone: an enum between the two would list them once more.
use crate::{lines, made, sweeps, zeros};
use system::System;
use trial::buffers::BUFFER_BYTES;
use trial::cases::{Words, number_of};
use trial::changes::NOT_GIVEN;
use trial::{files, say};

// The bytes of the text that are read at most.
pub const TEXT_BYTES: usize = 131072;

// The five d, the five q, and the five C or T.
const DATA: [usize; 5] = [0, 1, 1000000, 1000001, 4294967295];

const MOSTS: [usize; 5] = [0, 1, 256, 65535, NOT_GIVEN];

const TICKS: [usize; 5] = [0, 1, 65535, 65536, 4294967295];

// What follows the name.
fn say_kind(rt: &HostRuntime, kind: u8, y: System, number: usize) {
    let t = number.wrapping_sub(1);
    match kind {
        b't' => say::say(rt, b"\n"),
        b'c' => lines::say_call(rt, y, BUFFER_BYTES),
        b's' => lines::say_call(rt, y, 12),
        b'd' => lines::say_each(rt, y, b'd', t, &DATA),
        b'q' => lines::say_each(rt, y, b'q', t, &MOSTS),
        b'C' => lines::say_each(rt, y, b'R', t, &TICKS),
        b'T' => lines::say_each(rt, y, b'P', t, &TICKS),
        b'f' => lines::say_file(rt, y),
        b'z' => lines::say_zero(rt, zeros::with_zero(files::file_of(y), y, t)),
        b'e' => lines::say_zero(rt, zeros::with_zeros(y)),
        b'b' => lines::say_whole(rt, zeros::with_zeros(y)),
        b'r' => lines::say_room(rt, y, number),
        _ => lines::say_again(rt, zeros::with_zeros(y)),
    }
}

// A case: its kind with the number of the type that it names or of its buffer's bytes, its system, and its name. Answers how many calls were wrong, of those
// that are counted.
pub fn say_case(rt: &HostRuntime, line: &[u8]) -> usize {
    let mut words = Words::of(line);
    let Some((kind, number)) = words.word().split_first() else {
        return 0;
    };
    let y = made::made_of(&mut words);
    let name = words.rest();
    match *kind {
        b'l' => sweeps::say_lengths(rt, name, y, 165, 10),
        b'm' => sweeps::say_lengths(rt, name, y, 243, 11),
        b'n' => sweeps::say_lengths(rt, name, y, 309, 12),
        _ => {
            say::say(rt, name);
            say_kind(rt, *kind, y, number_of(number));
            0
        }
    }
}
