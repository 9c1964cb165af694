// A listing of a plan of two kinds of engine: taken apart into records, which are judged as a plan, and held to what is written for these records, byte by
// byte.
use crate::judge;
use crate::lent::MOST;
use loads::EngineLoad;
use planner::EngineRecord;
use system::{System, TYPE_LIMIT};
use trial::cases::Words;
use trial::say;
use trial_records::OLD;

// The number after the next word, which says what it is.
fn named(words: &mut Words<'_>) -> usize {
    words.word();
    words.number()
}

// The counts of k types.
fn counts_in(words: &mut Words<'_>, k: usize) -> [u16; TYPE_LIMIT] {
    let mut counts = [0; TYPE_LIMIT];
    for count in counts.iter_mut().take(k) {
        *count = (words.number() % 65536) as u16;
    }
    counts
}

// The record of a line: `engine`, its number, `util`, its time, `mem`, its memory, `types`, and k counts.
fn record_in(words: &mut Words<'_>, k: usize) -> EngineRecord {
    let number = named(words);
    let time = (named(words) % 4294967296) as u32;
    let memory = (named(words) % 4294967296) as u32;
    words.word();
    let counts = counts_in(words, k);
    EngineRecord {
        number,
        load: EngineLoad {
            time,
            memory,
            counts,
        },
    }
}

// So many records; those past the last one are as they were.
fn records_in(words: &mut Words<'_>, k: usize, used: usize) -> [EngineRecord; MOST] {
    let mut list = [OLD; MOST];
    for record in list.iter_mut().take(used) {
        *record = record_in(words, k);
    }
    list
}

// What follows a word and a number in decimal, where a text starts with them.
fn after_number<'a>(text: &'a [u8], word: &[u8], n: usize) -> Option<&'a [u8]> {
    let mut digits = [0; 20];
    let size = io::decimal(n as u64, &mut digits);
    text.strip_prefix(word)?.strip_prefix(&digits[..size])
}

// What follows the line of a record.
fn after_record<'a>(text: &'a [u8], r: &EngineRecord, k: usize) -> Option<&'a [u8]> {
    let numbered = after_number(text, b"engine ", r.number)?;
    let timed = after_number(numbered, b" util ", r.load.time as usize)?;
    let stored = after_number(timed, b" mem ", r.load.memory as usize)?;
    let mut rest = stored.strip_prefix(b" types")?;
    for count in r.load.counts.iter().take(k) {
        rest = after_number(rest, b" ", usize::from(*count))?;
    }
    rest.strip_prefix(b"\n")
}

// What follows the listing of the records.
fn after_listing<'a>(text: &'a [u8], records: &[EngineRecord], k: usize) -> Option<&'a [u8]> {
    let mut rest = after_number(text, b"engines ", records.len())?.strip_prefix(b"\n")?;
    for r in records {
        rest = after_record(rest, r, k)?;
    }
    Some(rest)
}

// A listing judged: the refusal that it says, or how many engines and how many of the second kind, and what is wrong with it.
pub fn say_judged(rt: &HostRuntime, y: System, text: &[u8]) {
    let mut words = Words::of(text);
    let number = named(&mut words);
    if text.starts_with(b"r") {
        say::say(rt, b" refused");
        say::say_also(rt, number);
        return;
    }
    let list = records_in(&mut words, y.typecount, number);
    let records = &list[..number.min(MOST)];
    let listed = after_listing(text, records, y.typecount).is_some_and(|rest| rest.is_empty());
    say::say(rt, b" engines");
    say::say_also(rt, number);
    say::say(rt, b" second");
    say::say_also(rt, judge::second_in(y, records));
    if listed && judge::judged(y, records).is_ok() {
        say::say(rt, b" right");
    } else {
        say::say(rt, b" WRONG");
    }
}
