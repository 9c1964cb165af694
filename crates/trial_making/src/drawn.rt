// Recipes drawn from the numbers at both ends of every limit; and for each a buffer that is a byte too short, just long enough, a byte longer, or much longer.
use making::Recipe;
use trial::buffers::BUFFER_BYTES;
use trial::spread::Draws;

// What a number is drawn from: up to its limit, and past it.
#[derive(Clone, Copy)]
struct Ends {
    within: [u64; 8],
    past: [u64; 4],
}

const ENGINES: Ends = Ends {
    within: [1, 1, 2, 3, 8, 15, 16, 16],
    past: [0, 17, 257, 18446744073709551615],
};

const RULES: Ends = Ends {
    within: [0, 1, 0, 1, 0, 1, 0, 1],
    past: [2, 3, 128, 255],
};

const SIZES: Ends = Ends {
    within: [1, 2, 256, 65535, 65536, 658188, 999999, 1000000],
    past: [0, 1000001, 16777216, 4294967295],
};

const COUNTS: Ends = Ends {
    within: [1, 1, 2, 3, 4, 5, 6, 6],
    past: [0, 7, 257, 18446744073709551615],
};

const TOPS: Ends = Ends {
    within: [0, 1, 2, 3, 4, 7, 15, 63],
    past: [64, 4095, 65536, 18446744073709551615],
};

// A number that is past its limit in one of 16 draws.
fn number(draws: &mut Draws, ends: &Ends) -> u64 {
    let side = draws.below(16);
    let place = draws.below(8);
    if side == 0 {
        ends.past[place % 4]
    } else {
        ends.within[place % 8]
    }
}

// A number of four bytes.
fn size(draws: &mut Draws) -> u32 {
    (number(draws, &SIZES) % 4294967296) as u32
}

// A seed for the recipe, of two seeds of 31 bits; 0 in one of 16 draws.
fn recipe_seed(draws: &mut Draws) -> u64 {
    let side = draws.below(16);
    draws.below(1);
    let high = draws.seed % 2147483648;
    draws.below(1);
    let low = draws.seed % 2147483648;
    if side == 0 {
        0
    } else {
        high * 8589934592 + low
    }
}

// A recipe and the length of its buffer, and the seed after them.
#[derive(Clone, Copy)]
pub struct Drawn {
    pub seed: u64,
    pub recipe: Recipe,
    pub room: usize,
}

// The length of the buffer: the file's less one, the file's, one more, or all of it.
fn room_of(k: usize, choice: usize) -> usize {
    if choice < 3 {
        return ((k % 8) * 13 + 13).wrapping_add(choice).wrapping_sub(1);
    }
    BUFFER_BYTES
}

pub fn drawn_recipe(seed: u64) -> Drawn {
    let mut draws = Draws { seed };
    let recipe = Recipe {
        seed: recipe_seed(&mut draws),
        engines: number(&mut draws, &ENGINES) as usize,
        rule: (number(&mut draws, &RULES) % 256) as u8,
        timecap: size(&mut draws),
        memorycap: size(&mut draws),
        typecount: number(&mut draws, &COUNTS) as usize,
        top: number(&mut draws, &TOPS),
    };
    let room = room_of(recipe.typecount, draws.below(4));
    Drawn {
        seed: draws.seed,
        recipe,
        room,
    }
}
