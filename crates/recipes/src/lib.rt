// What a text of seven numbers comes to, for program `make`: a type, with the definitions and theorems on it. No code: that is crate `recipes_code`.
#![tactic(auto)]

// How many numbers there are. `at` is this once 0A has ended the last, and more once a byte was met that may not stand where it does.
pub const NUMBERS: usize = 7;

// What the bytes so far come to: the numbers that have ended, 0 after them; how many these are; and of the number that is being read its value, cut to 64 bits,
// whether it was cut, and whether it has a digit.
#[derive(Clone, Copy)]
pub struct Progress {
    pub numbers: [u64; NUMBERS],
    pub at: usize,
    pub value: u64,
    pub over: bool,
    pub some: bool,
}
