// Bytes put into a lent buffer. Each function that puts some answers the place after them, so that the next one goes on there; everything else in the buffer
// is as it was.
#![tactic(auto)]

ghost use Rattle.std.specs.Prelude.{◌∷◌, [], ◌≡◌, ◌+◌, ◌≤◌, ◌<◌, min, length};
ghost use Rattle.buffer.specs.Bytes.{bytes2, bytes4};
ghost use Rattle.buffer.specs.Written.{Puts};

// Puts one byte.
pub fn put_byte(out: &mut [u8], at: usize, b: u8) -> usize
    requires { at < length out.old }
    ensures { Puts (b ∷ []) at out.old out.new result }
{
    out[at] = b;
    at + 1
}

// Puts all bytes of a slice.
pub fn put_bytes(out: &mut [u8], at: usize, bytes: &[u8]) -> usize
    requires { at + length bytes.now ≤ length out.old }
    ensures { Puts bytes.now at out.old out.new result }
{
    let next = at + bytes.len();
    out[at..next].copy_from_slice(bytes);
    next
}

// Puts a number of two bytes, most significant byte first. By division and not by `to_be_bytes`, here and below: edit `least_first` turns the two halves
// together with those of `bytes2`. They stay two functions: one puts bytes, the other halves.
pub fn put_two(out: &mut [u8], at: usize, n: u16) -> usize
    requires { at + 2 ≤ length out.old }
    ensures { Puts (bytes2 n) at out.old out.new result }
{
    let next = put_byte(out, at, (n / 256) as u8);
    put_byte(out, next, (n % 256) as u8)
}

// Puts a number of four bytes, most significant byte first.
pub fn put_four(out: &mut [u8], at: usize, n: u32) -> usize
    requires { at + 4 ≤ length out.old }
    ensures { Puts (bytes4 n) at out.old out.new result }
{
    let next = put_two(out, at, (n / 65536) as u16);
    put_two(out, next, (n % 65536) as u16)
}

// The smaller of two numbers: how much of what was read, or of a list, there is room for. `min` at its callers would say no more, and no less.
pub fn least(a: usize, b: usize) -> usize
    ensures { result ≡ min a b }
{
    a.min(b)
}
