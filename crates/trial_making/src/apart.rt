// The system that a recipe makes, apart from the code: the generator goes bit by bit over arrays of 64 bits.
ghost use Rattle.std.specs.Prelude.{◌≤◌};

use making::Recipe;
use system::{System, TYPE_LIMIT};
use trial::systems;

// The bits of a number, the lowest first.
fn bits_of(x: u64) -> [bool; 64] {
    let mut bits = [false; 64];
    let mut left = x;
    for bit in bits.iter_mut() {
        *bit = left % 2 == 1;
        left = left / 2;
    }
    bits
}

// The number of these bits.
fn number_of(bits: &[bool; 64]) -> u64 {
    bits.iter().rev().fold(0u64, |x, bit| {
        x.wrapping_add(x).wrapping_add(u64::from(*bit))
    })
}

// Each bit n places further up, where there is one.
fn raised(bits: &[bool; 64], n: usize) -> [bool; 64]
    requires { n ≤ 64 }
{
    let mut moved = [false; 64];
    moved[n..].copy_from_slice(&bits[..64 - n]);
    moved
}

// Each bit n places further down, where there is one.
fn lowered(bits: &[bool; 64], n: usize) -> [bool; 64]
    requires { n ≤ 64 }
{
    let mut moved = [false; 64];
    moved[..64 - n].copy_from_slice(&bits[n..]);
    moved
}

// Each bit turned where the other one at its place is 1.
fn turned(bits: &[bool; 64], by: &[bool; 64]) -> [bool; 64] {
    let mut turned = *bits;
    for (bit, other) in turned.iter_mut().zip(by) {
        *bit = *bit != *other;
    }
    turned
}

// The generator's next value.
fn next_value(x: u64) -> u64 {
    let bits = bits_of(x);
    let one = turned(&bits, &raised(&bits, 13));
    let two = turned(&one, &lowered(&one, 7));
    number_of(&turned(&two, &raised(&two, 17)))
}

// A remainder, 0 where there is nothing to divide by.
fn remainder(x: u64, by: u64) -> u64 {
    x.checked_rem(by).unwrap_or(0)
}

// One of the numbers from 1 to `most`.
fn from_one(x: u64, most: u32) -> u32 {
    (remainder(x, u64::from(most)).wrapping_add(1) % 4294967296) as u32
}

// One of the numbers from 0 to `most`.
fn from_zero(x: u64, most: u64) -> u16 {
    (remainder(x, most.wrapping_add(1)) % 65536) as u16
}

// The system that a recipe makes.
pub fn system_of(w: Recipe) -> System {
    let mut y = systems::platform_of(w.engines, w.rule, w.timecap, w.memorycap);
    let mut value = w.seed;
    for _ in 0..w.typecount.min(TYPE_LIMIT) {
        let first = next_value(value);
        let second = next_value(first);
        value = next_value(second);
        let time = from_one(first, w.timecap);
        let memory = from_one(second, w.memorycap);
        y = systems::with_type(y, time, memory, from_zero(value, w.top));
    }
    y
}
