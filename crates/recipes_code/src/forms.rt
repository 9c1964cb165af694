// The recipe of seven numbers of 64 bits: each is cut to the form that it has there. What is cut is over its limit before and after, so it is refused as it
// would be.
ghost use Rattle.std.specs.Prelude.{◌≡◌, min};
ghost use Rattle.recipes.specs.Output.{recipe_of};

use making::Recipe;
use recipes::NUMBERS;

// The largest number of 8 bits, and of 32.
const MOST_8: u64 = u8::MAX as u64;

const MOST_32: u64 = u32::MAX as u64;

// A number as one of 8 bits: 255 where it is larger.
fn eight(n: u64) -> u8
    ensures { result ≡ min n 255 }
{
    n.min(MOST_8) as u8
}

// A number as one of 32 bits: 4,294,967,295 where it is larger. It is not one function with `eight`: a cast names its type.
fn thirty_two(n: u64) -> u32
    ensures { result ≡ min n 4294967295 }
{
    n.min(MOST_32) as u32
}

// A number as a count, which has 64 bits too.
fn count(n: u64) -> usize
    ensures { result ≡ n }
{
    n as usize
}

// The numbers in the order in which the text has them: seed, m, rule, U, S, k, g.
pub fn recipe_of(numbers: [u64; NUMBERS]) -> Recipe
    ensures { result ≡ recipe_of numbers }
{
    Recipe {
        seed: numbers[0],
        engines: count(numbers[1]),
        rule: eight(numbers[2]),
        timecap: thirty_two(numbers[3]),
        memorycap: thirty_two(numbers[4]),
        typecount: count(numbers[5]),
        top: numbers[6],
    }
}
