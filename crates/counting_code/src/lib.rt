// Request 2026-11: how tight a system is. The number of good assignments of its instances to its engines, and the number of all, engines and instances
// being distinct.
#![tactic(auto)]

mod calls;
mod chosen;
mod passes;
mod total;

pub use calls::count_assignments;
