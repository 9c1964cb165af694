// A trial's cases: a line of standard input each, whose words are taken from it one after the other.
// `each_case::<65536, _>(&rt, |line| say_case(&rt, line))`, and in `say_case`: `let mut words = Words::of(line); let name = words.word(); words.number()`.
ghost use Rattle.std.specs.Prelude.{◌≡◌, ◌/◌, ◌<◌, ◌≤◌, min, length, slice_index, nat_le};
ghost use Rattle.std.specs.List.{position, position_or_len};
ghost use Rattle.trial.specs.Words.{first_word, after_word, IsNumberOf};

use crate::input::read_full;
use crate::lent::{back, front};
use crate::words::{Bytes, CASE_BYTES, two_digits_of};

// The place of the first byte that is not above a space.
fn gap_of(line: &[u8]) -> Option<usize>
    ensures { result ≡ position (λ b. nat_le b 32) line.now }
{
    line.iter().position(|b| *b <= b' ')
}

// How many bytes stand before it, or in all.
fn word_end(line: &[u8]) -> usize
    ensures value { result ≡ position_or_len (λ b. nat_le b 32) line.now }
    ensures bound { result ≤ length line.now }
{
    gap_of(line).unwrap_or(line.len())
}

// What is left of a line. Its words are parted by one byte each, a space or any below it.
#[derive(Clone, Copy)]
pub struct Words<'a> {
    rest: &'a [u8],
}

impl<'a> Words<'a> {
    pub fn of(line: &'a [u8]) -> Words<'a>
        ensures { result.rest.now ≡ line.now }
    {
        Words { rest: line }
    }

    // All that is left.
    pub fn rest(&self) -> &'a [u8]
        ensures { result.now ≡ self.now.rest.now }
    {
        self.rest
    }

    // The next word, empty where none is left.
    pub fn word(&mut self) -> &'a [u8]
        ensures word { result.now ≡ first_word self.old.rest.now }
        ensures after { self.new.rest.now ≡ after_word self.old.rest.now }
        ensures shorter { 0 < length self.old.rest.now → length self.new.rest.now < length self.old.rest.now }
    {
        let line = self.rest;
        let end = word_end(line);
        self.rest = back(back(line, end), 1);
        front(line, end)
    }

    // Hands `f` each word up to the one that is `last`, which is taken too.
    pub fn each_until<F: FnMut(&[u8])>(&mut self, last: &[u8], mut f: F)
        requires { F.IsAlwaysCallable f }
        ensures { 0 < length self.old.rest.now → length self.new.rest.now < length self.old.rest.now }
    {
        while !self.rest.is_empty() {
            let word = self.word();
            if word == last {
                return;
            }
            f(word);
        }
    }

    // The first byte of the next word, 0 where none is left.
    pub fn letter(&mut self) -> u8
        ensures letter { result ≡ slice_index (first_word self.old.rest.now) 0 }
        ensures after { self.new.rest.now ≡ after_word self.old.rest.now }
    {
        self.word().first().copied().unwrap_or(0)
    }

    // The next word as a decimal number, 0 where it is none.
    pub fn number(&mut self) -> usize
        ensures number { IsNumberOf (first_word self.old.rest.now) result }
        ensures after { self.new.rest.now ≡ after_word self.old.rest.now }
    {
        number_of(self.word())
    }

    // The next word as bytes, two hexadecimal digits each.
    pub fn bytes(&mut self) -> Bytes
        ensures size { result.size ≡ min 512 (length (first_word self.old.rest.now) / 2) }
        ensures after { self.new.rest.now ≡ after_word self.old.rest.now }
    {
        bytes_of(self.word())
    }
}

// The number that a word spells in decimal digits, 0 where it spells none.
pub fn number_of(word: &[u8]) -> usize
    ensures { IsNumberOf word.now result }
{
    str::from_utf8(word)
        .ok()
        .and_then(|digits| digits.parse().ok())
        .unwrap_or(0)
}

// The bytes that a word spells, at most 512; a last digit without another is left out. No clause says which bytes they are: tried, the proof did not close.
pub fn bytes_of(word: &[u8]) -> Bytes
    ensures { result.size ≡ min 512 (length word.now / 2) }
{
    let mut bytes: [u8; CASE_BYTES] = [0; CASE_BYTES];
    for (byte, digits) in bytes.iter_mut().zip(word.chunks_exact(2)) {
        *byte = two_digits_of(digits);
    }
    Bytes {
        bytes,
        size: CASE_BYTES.min(word.len() / 2),
    }
}

// The lines of a text, each without its end, handed to `f` one after the other. It and `each_case` have no `ensures`: what comes of a line is `f`'s alone.
pub fn each_line<F: FnMut(&[u8])>(text: &[u8], mut f: F)
    requires { F.IsAlwaysCallable f }
{
    for line in text.split_inclusive(|b| *b == b'\n') {
        f(line.strip_suffix(b"\n").unwrap_or(line));
    }
}

// The lines of standard input, of which the first N bytes are read, handed to `f` one after the other.
pub fn each_case<const N: usize, F: FnMut(&[u8])>(rt: &HostRuntime, f: F)
    requires fits { N < 9223372036854775808 }
    requires callable { F.IsAlwaysCallable f }
{
    let mut input = [0u8; N];
    let read = read_full(rt, &mut input);
    each_line(&input[..read], f);
}
