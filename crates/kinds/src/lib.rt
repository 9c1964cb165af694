// The type that the definitions of a placement on two kinds of engine speak of. No code: crate `kinds_code` has the functions.
#![tactic(auto)]

use loads::EngineLoad;
use system::ENGINE_LIMIT;

// All instances placed on the engines of two kinds: the number of used engines of both kinds together, and for each used engine, numbers rising, its
// number and what it holds; 0 and idle past them.
#[derive(Clone, Copy, PartialEq, Eq)]
pub struct Mixed {
    pub used: usize,
    pub numbers: [usize; ENGINE_LIMIT],
    pub loads: [EngineLoad; ENGINE_LIMIT],
}
