// The types that the definitions of the count speak of. No code: crate `counting_code` has the functions.
#![tactic(auto)]

// The number of good assignments, and the total of all.
#[derive(Clone, Copy, PartialEq, Eq)]
pub struct Counts {
    pub good: u64,
    pub total: u64,
}
