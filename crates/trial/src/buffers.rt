// Buffers of which a first part is lent: what stands in them before a call, and whether a call left it there.

use crate::lent;
use std::array;

// The bytes of a buffer, and of a file with what stands past it: more than the 384 that `plan` reads, and than the 307 of the longest file.
pub const BUFFER_BYTES: usize = 400;

// What stands at a place before a call: never 0, and another byte for each `fill` below 127.
pub fn old_byte(fill: usize, i: usize) -> u8 {
    (((i % 256) * 7 + fill % 127) % 127 + 129) as u8
}

pub fn old_bytes(fill: usize) -> [u8; BUFFER_BYTES] {
    array::from_fn(|i| old_byte(fill, i))
}

// The bytes from `start` on are as they were before the call.
pub fn kept_from(bytes: [u8; BUFFER_BYTES], fill: usize, start: usize) -> bool {
    lent::kept_from(&bytes, &old_bytes(fill), start)
}
