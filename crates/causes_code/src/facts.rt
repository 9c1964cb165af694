// The causes as tests of a load and of a number of engines, in the request's order: the first that holds is the cause. No table is asked here; whether a good
// assignment exists is handed in.
ghost use Rattle.std.specs.Prelude.{◌≡◌, ◌-◌, ◌*◌, ◌≤◌, ◌<◌, ltb, MatchOption};
ghost use Rattle.system.specs.Limits.{engine_limit, type_limit};
ghost use Rattle.loads.specs.Load.{one_more, empty_load};
ghost use Rattle.causes.specs.Causes.{cause_number, unfit_at, lowest_unfit, over_most, replicas_short, cause_of};

use causes::Cause;
use system::{System, TYPE_LIMIT, TaskType};

// The request's number of a cause: the request fixes the numbers, 0 for a load that has a place among them, so they are written out, and `Possible` is no None.
pub fn cause_number(cause: Cause) -> u8
    ensures { result ≡ cause_number cause }
{
    match cause {
        Cause::Possible => 0,
        Cause::NoEngine => 1,
        Cause::OneTooLarge(t) => 2,
        Cause::TooMuchTime => 3,
        Cause::TooMuchMemory => 4,
        Cause::TooManyReplicas => 5,
        Cause::NoArrangement => 6,
    }
}

// The load of one instance of type t.
fn alone(t: usize) -> [u16; TYPE_LIMIT]
    requires { (1 ≤ t) × (t ≤ type_limit) }
    ensures { result ≡ one_more (t - 1) empty_load }
{
    loads_code::one_more([0; TYPE_LIMIT], t - 1)
}

// Type t is in the load, and one instance of it does not fit an empty engine.
fn unfit(y: System, counts: [u16; TYPE_LIMIT], t: usize) -> bool
    requires { (1 ≤ t) × (t ≤ type_limit) }
    ensures { result ≡ unfit_at y counts t }
{
    (1 <= counts[t - 1]) & !loads_code::fits_engine(y, alone(t))
}

// The lowest such type.
fn lowest_unfit(y: System, counts: [u16; TYPE_LIMIT]) -> Option<usize>
    ensures { MatchOption result (lowest_unfit y counts ≡ 0) (λ t. (0 < t) × (t ≡ lowest_unfit y counts)) }
{
    (1..TYPE_LIMIT + 1).find(|t| unfit(y, counts, *t))
}

// Request 2026-10: "Totals may now pass 32 bits." A load within the ceilings has at most 4,095 instances, since the columns are at most 4,096. With every u,
// s and d
// at its largest, 1,000,000, the total time is at most 4,095,000,000, and the total memory at most 4,095 × 2,000,000 = 8,190,000,000 under rule 0
// (4,096,000,000 under
// rule 1): more than 2^32 = 4,294,967,296. The sums and the products that they are compared with are 64-bit numbers, which hold the sums of any six counts,
// within the limits or not.

// A total, of time or of memory, exceeds engines × what one of them has, U or S. The bound of the engines stands in four contracts here: a type for so small a
// number would be taken apart at each product.
fn short(engines: usize, cap: u32, total: u64) -> bool
    requires { engines ≤ engine_limit }
    ensures { result ≡ ltb (engines * cap) total }
{
    (engines as u64) * (cap as u64) < total
}

// A count exceeds q × engines, where q is given. A closure for `is_some_and` would have to ask for the bound on the engines once more.
fn over_most(engines: usize, most: Option<u16>, count: u16) -> bool
    requires { engines ≤ engine_limit }
    ensures { result ≡ over_most engines most count }
{
    match most {
        None => false,
        Some(q) => (q as u64) * (engines as u64) < count as u64,
    }
}

// Some count does.
fn replicas_short(engines: usize, types: [TaskType; TYPE_LIMIT], counts: [u16; TYPE_LIMIT]) -> bool
    requires { engines ≤ engine_limit }
    ensures { result ≡ replicas_short engines types counts }
{
    types
        .iter()
        .zip(&counts)
        .any(|(task, count)| over_most(engines, task.most, *count))
}

// Why a load has no place on so many engines; `placed` says whether it has one. The first cause that holds.
pub(crate) fn cause_of(y: System, engines: usize, counts: [u16; TYPE_LIMIT], placed: bool) -> Cause
    requires { engines ≤ engine_limit }
    ensures { result ≡ cause_of y engines counts placed }
{
    if (engines == 0) & !loads_code::holds_none(counts) {
        return Cause::NoEngine;
    }
    if let Some(t) = lowest_unfit(y, counts) {
        return Cause::OneTooLarge(t);
    }
    let sums = loads_code::sums_of(y, counts);
    let time = short(engines, y.timecap, sums.time);
    if time {
        return Cause::TooMuchTime;
    }
    let memory = short(engines, y.memorycap, sums.memory);
    if memory {
        return Cause::TooMuchMemory;
    }
    if replicas_short(engines, y.types, counts) {
        return Cause::TooManyReplicas;
    }
    if placed {
        return Cause::Possible;
    }
    Cause::NoArrangement
}
