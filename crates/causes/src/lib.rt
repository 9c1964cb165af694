// The types of request 2026-08, why there is no place, with the definitions and theorems on them: no code. The functions stand in crate `causes_code`.
#![tactic(auto)]

use system::Refusal;

// Why a load has no place on some engines. The request's numbers are those of `cause_number`.
#[derive(Clone, Copy, PartialEq, Eq)]
pub enum Cause {
    Possible, // 0: a good assignment exists
    NoEngine, // 1: no engine is in service, though the load is not empty
    OneTooLarge(usize), // 2: one instance of this type does not fit an empty engine
    TooMuchTime, // 3: the whole load takes more time than all engines have
    TooMuchMemory, // 4: it takes more memory than all engines have
    TooManyReplicas, // 5: of some type there are more instances than q × engines
    NoArrangement, // 6: none of these, yet no good assignment exists
}
