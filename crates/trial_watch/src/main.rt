// The text that program `watch` writes: a case on each line of standard input, with a name, an engine's number, the ticks, the first tick that is shown, and
// the bytes of
// a system file. Prints for each case the text of the whole file, and whether that of what the program reads is the same. A sixth word says after how many
// bytes the
// input ends: then only the text of these is printed, and what stands behind them must change nothing. Every byte of a buffer held something else before:
// `kept` says that all
// past those written are as they were, of the buffer of what was read, and then of that of the whole file. What is expected was computed apart from the code,
// by a model
// of documents 01 and 02.
#![tactic(auto)]

ghost use Rattle.timeline.specs.Meaning.{WatchPromises, ReadPromises};

use system::FILE_BYTES;
use timeline_code::{WATCH_BYTES, WATCH_FRONT, watch_of, watch_read};
use trial::cases::{Words, each_case, number_of};
use trial::say::say;
use trial::words::Bytes;

// The bytes of the text that are read at most.
const TEXT_BYTES: usize = 65536;

// What every byte of a buffer holds before it is lent: no byte of a text, and not 0.
const OLD: u8 = 170;

// A case: its numbers and its file, and after how many bytes its input is cut, where it is.
#[derive(Clone, Copy)]
struct Case {
    engine: usize,
    ticks: usize,
    from: usize,
    file: Bytes,
    cut: Option<usize>,
}

fn case_in(mut words: Words) -> Case {
    Case {
        engine: words.number(),
        ticks: words.number(),
        from: words.number(),
        file: words.bytes(),
        cut: Some(words.word())
            .filter(|word| !word.is_empty())
            .map(number_of),
    }
}

// What the program reads of a case whose numbers are in the bytes that they have.
fn front_of(c: &Case) -> [u8; WATCH_FRONT] {
    let mut front = [0u8; WATCH_FRONT];
    front[0] = (c.engine % 256) as u8;
    front[1..5].copy_from_slice(&((c.ticks % 4294967296) as u32).to_be_bytes());
    front[5..9].copy_from_slice(&((c.from % 4294967296) as u32).to_be_bytes());
    front[9..].copy_from_slice(&c.file.bytes[..FILE_BYTES]);
    front
}

// The call with all that it promises, of every file and all numbers: a contract that said it of some alone would not prove this.
fn watch_promised(
    file: &[u8],
    engine: usize,
    ticks: usize,
    from: usize,
    out: &mut [u8; WATCH_BYTES],
) -> usize
    ensures { WatchPromises file.now engine ticks from out.old out.new result }
{
    watch_of(file, engine, ticks, from, out)
}

// The same of the call of the program.
fn read_promised(front: [u8; WATCH_FRONT], read: usize, out: &mut [u8; WATCH_BYTES]) -> usize
    ensures { ReadPromises front read out.old out.new result }
{
    watch_read(front, read, out)
}

// Whether all bytes past those written are as they were.
fn say_rest(rt: &HostRuntime, rest: &[u8]) {
    if rest.iter().all(|byte| *byte == OLD) {
        say(rt, b" kept");
    } else {
        say(rt, b" CHANGED");
    }
}

// Whether what the program reads has this text.
fn say_read(rt: &HostRuntime, front: [u8; WATCH_FRONT], size: usize, text: &[u8]) {
    let mut out = [OLD; WATCH_BYTES];
    let written = read_promised(front, size, &mut out);
    if text == &out[..written] {
        say(rt, b" read: same");
    } else {
        say(rt, b" read: other");
    }
    say_rest(rt, &out[written..]);
}

// The text of the first bytes of an input.
fn say_cut(rt: &HostRuntime, front: [u8; WATCH_FRONT], size: usize) {
    let mut out = [OLD; WATCH_BYTES];
    let written = read_promised(front, size, &mut out);
    say(rt, &out[..written]);
    say(rt, b" read: cut");
    say_rest(rt, &out[written..]);
    say(rt, b"\n");
}

// The text of the whole file, and whether the program has the same.
fn say_whole(rt: &HostRuntime, c: &Case) {
    let mut out = [OLD; WATCH_BYTES];
    let written = watch_promised(c.file.as_slice(), c.engine, c.ticks, c.from, &mut out);
    let text = &out[..written];
    say(rt, text);
    say_read(rt, front_of(c), c.file.size % 4096 + 9, text);
    say_rest(rt, &out[written..]);
    say(rt, b"\n");
}

fn say_case(rt: &HostRuntime, line: &[u8]) {
    let mut words = Words::of(line);
    say(rt, words.word());
    say(rt, b":\n");
    let c = case_in(words);
    match c.cut {
        Some(size) => say_cut(rt, front_of(&c), size),
        None => say_whole(rt, &c),
    }
}

// Each trial has its own `main`, and the call that they share is one line.
fn main(rt: HostRuntime) {
    each_case::<TEXT_BYTES, _>(&rt, |line| say_case(&rt, line));
}
