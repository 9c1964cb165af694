// The total of all assignments: m to the power N.
ghost use Rattle.std.specs.Prelude.{◌≡◌, ◌≤◌, true};
ghost use Rattle.system.specs.Values.{ceilings_of};
ghost use Rattle.system.specs.Limits.{keeps_limits};
ghost use Rattle.partition.specs.Listing.{instances};
ghost use Rattle.counting.specs.Walk.{power_of, total_of};

use system::System;

// The instances of all types.
fn instances_of(y: System) -> usize
    ensures { result ≡ instances (ceilings_of y) }
{
    y.types.iter().map(|task| task.ceiling as usize).sum()
}

// The base, at least 1, to the power `times`, where it does not pass 64 bits. `checked_pow` takes 32 bits of it: it would have to be asked that no bit is cut.
fn power(base: u64, times: usize) -> Option<u64>
    requires { 1 ≤ base }
    ensures { result ≡ power_of base times }
{
    let mut value: u64 = 1;
    for _k in 0..times {
        value = value.checked_mul(base)?;
    }
    Some(value)
}

// The total of all assignments of a system's instances to its engines, where it does not pass 64 bits.
pub fn total_of(y: System) -> Option<u64>
    requires { keeps_limits y ≡ true }
    ensures { result ≡ total_of y }
{
    power(y.engines as u64, instances_of(y))
}
