// A system told by words, each of which gives one of its numbers as crate `trial` reads it (`k=2`, `m=3`, `u1=4`): what none gives is 0 or not given. So a
// system may break any limit.
use system::System;
use trial::changes::{change_of, changed};
use trial::systems::no_system;

// The words of the longest file of two kinds are 62: five for the platform, three for the second kind, and nine for each type.
const WORDS: usize = 64;

pub fn system_told(words: &[u8]) -> System {
    let mut y = no_system();
    for word in words.split(|byte| *byte <= b' ').take(WORDS) {
        y = changed(y, change_of(word));
    }
    y
}
