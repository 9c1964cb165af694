// Which recipes document 02 refuses, decided apart from the code.
use making::Recipe;

// The largest g of k types: g + 1 is 4,096, 64, 16, 8, 5 or 4, and its power at most 4,096.
fn largest_top(k: usize) -> u64 {
    match k {
        1 => 4095,
        2 => 63,
        3 => 15,
        4 => 7,
        5 => 4,
        _ => 3,
    }
}

// A number that is 0, or that breaks its limit.
fn broken(w: Recipe) -> bool {
    (w.seed == 0)
        | (w.timecap == 0)
        | (w.memorycap == 0)
        | (1000000 < w.timecap)
        | (1000000 < w.memorycap)
        | (w.engines == 0)
        | (16 < w.engines)
        | (1 < w.rule)
        | (w.typecount == 0)
        | (6 < w.typecount)
}

// The number that a recipe is refused with, for a buffer of `room` bytes; none where its file is written.
pub fn refusal_of(w: Recipe, room: usize) -> Option<u8> {
    if broken(w) {
        return Some(39);
    }
    if largest_top(w.typecount) < w.top {
        return Some(40);
    }
    // the platform and each type have 13 bytes
    if room / 13 <= w.typecount {
        return Some(30);
    }
    None
}
