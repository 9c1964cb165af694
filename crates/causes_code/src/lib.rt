// Request 2026-08: why there is no place. Operators pass refusals 12 and 24 on to model engineers, who need the cause: of a system file that has no plan, and
// of a newcomer for whom a board has no room. Crate `causes` says what the cause is.
#![tactic(auto)]

mod calls;
mod facts;

pub use calls::{why_no_plan, why_no_room};
pub use facts::cause_number;
