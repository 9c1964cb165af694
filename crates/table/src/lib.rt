// The types that the definitions of the lent table speak of. No code: crate `table_code` has the functions.
#![tactic(auto)]

use loads::EngineLoad;
use system::ENGINE_LIMIT;

// A list of engines by their numbers, the first `count` of these: row i of a table stands for the i-th.
#[derive(Clone, Copy, PartialEq, Eq)]
pub struct Engines {
    pub count: usize,
    pub numbers: [usize; ENGINE_LIMIT],
}

// A load placed on the engines: the number of used engines, and what each engine holds.
#[derive(Clone, Copy, PartialEq, Eq)]
pub struct Placement {
    pub used: usize,
    pub loads: [EngineLoad; ENGINE_LIMIT],
}

// The entries of a column in both parts, with the pairs that are counted for it.
#[derive(Clone, Copy, PartialEq, Eq)]
pub struct Entry {
    pub row: u16,
    pub predecessor: u16,
    pub counted: usize,
}

// What a scan answers: the column that it found, if there is one, and how many columns it tried.
#[derive(Clone, Copy, PartialEq, Eq)]
pub struct Found {
    pub column: Option<u16>,
    pub tried: usize,
}
