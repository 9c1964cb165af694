// What the test programs hold the product to: a search over every assignment, and recovery, sums and the ledger from it, all written from documents 01 and
// 02 and apart from the code under test, whose structs alone they share.
#![tactic(auto)]

pub mod ledger;
pub mod recovery;
pub mod search;
