// How many ways there are to choose some of up to 63 instances: Pascal's triangle.
ghost use Rattle.counting.specs.Walk.{Choices};

// The numbers of instances and of chosen ones run from 0 to 63.
pub const SIDE: usize = 64;

pub const CHOSEN: usize = 4096;

// Entry 64 × n + x is the number of ways to choose x of n, for both below 64: each is the sum of the one above it and the one before that.
pub fn chosen() -> [u64; CHOSEN]
    ensures { Choices result }
{
    let mut table = [0u64; CHOSEN];
    table[0] = 1;
    table[SIDE] = 1;
    for i in SIDE + 1..CHOSEN {
        table[i] = table[i - SIDE] + table[i - SIDE - 1];
    }
    table
}
