// The text of seven numbers, read byte by byte: each number is one digit or more, one space stands between two, and 0A ends the last. Nothing follows.
// What the bytes come to keeps its flags, and a place past the last number for none: the definitions of crate `recipes` (specs/Digits) go by them.
ghost use Rattle.std.specs.Prelude.{◌≡◌, ◌≤◌, ◌<◌};
ghost use Rattle.recipes.specs.Digits.{begun, broken, with_digit, held, stored, takes_digit, ends_number, step, read_from};

use recipes::{NUMBERS, Progress};

// The place of a text that is not seven numbers, whatever follows.
const BROKEN: usize = 8;

// The place of the last number: 0A ends it, and a space each before.
const LAST: usize = 6;

// The largest number of 64 bits.
const GREATEST: u64 = u64::MAX;

// Before the first byte.
fn begun() -> Progress
    ensures { result ≡ begun }
{
    Progress {
        numbers: [0; NUMBERS],
        at: 0,
        value: 0,
        over: false,
        some: false,
    }
}

// After a byte that may not stand where it does.
fn broken() -> Progress
    ensures { result ≡ broken }
{
    Progress {
        at: BROKEN,
        ..begun()
    }
}

// One digit more. A value that would pass 64 bits stays at the largest of them and never comes back: so no number wraps, however many digits it has.
fn with_digit(p: Progress, digit: u64) -> Progress
    requires { digit ≤ 9 }
    ensures { result ≡ with_digit p digit }
{
    if (GREATEST - digit) / 10 < p.value {
        return Progress {
            value: GREATEST,
            over: true,
            some: true,
            ..p
        };
    }
    Progress {
        value: p.value * 10 + digit,
        some: true,
        ..p
    }
}

// The number that has ended, as it is kept. A seed may be any number of 64 bits but 0, so one that was cut must not become the largest of these: it is kept
// as 0, which
// is refused 39 as it would be. Of each other number the largest of 64 bits is over its limit already.
fn held(p: Progress) -> u64
    ensures { result ≡ held p }
{
    if (p.at == 0) & p.over {
        return 0;
    }
    p.value
}

// A number has ended.
fn stored(p: Progress) -> Progress
    requires { p.at < 7 }
    ensures { result ≡ stored p }
{
    let mut numbers = p.numbers;
    numbers[p.at] = held(p);
    Progress {
        numbers,
        at: p.at + 1,
        ..begun()
    }
}

// The byte is a digit where a number may stand.
fn takes_digit(p: Progress, b: u8) -> bool
    ensures { result ≡ takes_digit p b }
{
    b.is_ascii_digit() & (p.at < NUMBERS)
}

// The byte ends a number that has a digit.
fn ends_number(p: Progress, b: u8) -> bool
    ensures { result ≡ ends_number p b }
{
    p.some & (((b == b' ') & (p.at < LAST)) | ((b == b'\n') & (p.at == LAST)))
}

// One byte more.
fn step(p: Progress, b: u8) -> Progress
    ensures { result ≡ step p b }
{
    if takes_digit(p, b) {
        return with_digit(p, (b - b'0') as u64);
    }
    if ends_number(p, b) {
        return stored(p);
    }
    broken()
}

// All bytes.
pub fn read_numbers(text: &[u8]) -> Progress
    ensures { result ≡ read_from begun text.now }
{
    let mut p = begun();
    for byte in text {
        p = step(p, *byte);
    }
    p
}
