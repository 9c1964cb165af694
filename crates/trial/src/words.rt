// The bytes that a word of a case spells, two hexadecimal digits each.
ghost use Rattle.std.specs.Prelude.{◌≡◌, ◌+◌, ◌*◌, ◌<◌, take, slice_index};
ghost use Rattle.trial.specs.Words.{digit_of};

use crate::lent::front;

// The bytes of the longest word that is taken as bytes.
pub const CASE_BYTES: usize = 512;

// Bytes, and how many of them there are.
#[derive(Clone, Copy)]
pub struct Bytes {
    pub bytes: [u8; CASE_BYTES],
    pub size: usize,
}

impl Bytes {
    pub fn as_slice(&self) -> &[u8]
        ensures { result.now ≡ take self.now.size self.now.bytes }
    {
        front(&self.bytes, self.size)
    }
}

// The byte at a place, 0 past the end.
pub fn byte_of(text: &[u8], at: usize) -> u8
    ensures { result ≡ slice_index text.now at }
{
    text.get(at).copied().unwrap_or(0)
}

// The value of a digit, 0 for any other byte.
fn digit(byte: u8) -> usize
    ensures value { result ≡ digit_of byte }
    ensures bound { result < 16 }
{
    match byte {
        b'0'..=b'9' => usize::from(byte - b'0'),
        b'a'..=b'f' => usize::from(byte - b'a') + 10,
        _ => 0,
    }
}

// The byte of two digits.
pub fn two_digits_of(digits: &[u8]) -> u8
    ensures { result ≡ digit_of (slice_index digits.now 0) * 16 + digit_of (slice_index digits.now 1) }
{
    let high = digit(byte_of(digits, 0));
    let low = digit(byte_of(digits, 1));
    (high * 16 + low) as u8
}
