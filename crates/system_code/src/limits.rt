// The test of each of document 01's limits, which stands once: a test refuses with the number that its limit has there.
ghost use Rattle.std.specs.Prelude.{◌≡◌, cond, ◌&&◌, length, ltb, eqb};
ghost use Rattle.system.specs.Inner.{columns_within};
ghost use Rattle.system.specs.Outcome.{within};
ghost use Rattle.system.specs.Limits.{type_limit, size_fault, platform_fault, kind_counted, kind_fault, second_fault};
ghost use Rattle.system.specs.Limits.{type_fault, most_fault, cycle_keeps, pace_fault, paces_fault, costs_fault, columns_fault};
ghost use Rattle.system.specs.Limits.{kinds_agree, kinds_fault, zero_task, sound_task, types_keep, keeps_card, keeps_limits};

use system::{
    COLUMN_LIMIT, Costs, Cycle, ENGINE_LIMIT, Kind, Refusal, System, TICK_LIMIT, TYPE_LIMIT,
    TaskType,
};

// The largest U, S, u, s and d.
pub const SIZE_LIMIT: u32 = 1000000;

// U and S of a kind of engine, or u and s there: 8.
fn size_fault(time: u32, memory: u32) -> Result<(), Refusal>
    ensures { result ≡ within (size_fault time memory) }
{
    if !((time <= SIZE_LIMIT) & (memory <= SIZE_LIMIT)) {
        return Err(Refusal::Input(8));
    }
    Ok(())
}

// A platform's m, rule, U and S: 5, 6, 8.
pub fn platform_fault(m: usize, rule: u8, time: u32, memory: u32) -> Result<(), Refusal>
    ensures { result ≡ within (platform_fault m rule time memory) }
{
    if !((1 <= m) & (m <= ENGINE_LIMIT)) {
        return Err(Refusal::Input(5)); // of one kind
    }
    if rule > 1 {
        return Err(Refusal::Input(6));
    }
    size_fault(time, memory)
}

// As many engines of a second kind, where there are m of the first: at least 1, and at most 16 in all.
fn kind_counted(m: usize, n: usize) -> bool
    ensures { result ≡ kind_counted m n }
{
    (1 <= n) && (m <= ENGINE_LIMIT) && (n <= ENGINE_LIMIT - m)
}

// A second kind's number, U and S: 5, 8.
pub(crate) fn kind_fault(m: usize, n: usize, time: u32, memory: u32) -> Result<(), Refusal>
    ensures { result ≡ within (kind_fault m n time memory) }
{
    if !kind_counted(m, n) {
        return Err(Refusal::Input(5)); // of the second
    }
    size_fault(time, memory)
}

// The same where a second kind is given. A match, here and in `costs_fault`: with `map_or` the case of nothing given would come first and read as a default.
pub fn second_fault(m: usize, second: Option<Kind>) -> Result<(), Refusal>
    ensures { result ≡ within (second_fault m second) }
{
    match second {
        None => Ok(()),
        Some(k) => kind_fault(m, k.number, k.timecap, k.memorycap),
    }
}

// A type's u, s and d: 8.
pub fn type_fault(t: TaskType) -> Result<(), Refusal>
    ensures { result ≡ within (type_fault t) }
{
    if !((t.time <= SIZE_LIMIT) & (t.memory <= SIZE_LIMIT) & (t.data <= SIZE_LIMIT)) {
        return Err(Refusal::Input(8));
    }
    Ok(())
}

// A type's q, where it is given: 31.
pub fn most_fault(most: Option<u16>) -> Result<(), Refusal>
    ensures { result ≡ within (most_fault most) }
{
    match most {
        Some(0) => Err(Refusal::Input(31)),
        _ => Ok(()),
    }
}

// C and T within their bounds, on an engine that has time, and C of each T no more of the engine than u is of its U.
// Below 65,536 times a number of 32 bits fits.
fn cycle_keeps(timecap: u32, time: u32, c: Cycle) -> bool
    ensures { result ≡ cycle_keeps timecap time c }
{
    let within = (1 <= c.run) & (c.run <= c.period) & (c.period <= TICK_LIMIT);
    within
        & (1 <= timecap)
        & ((c.run as u64) * (timecap as u64) <= (time as u64) * (c.period as u64))
}

// A type's C and T, where they are given, with its u and the U of the engines: 43.
pub fn pace_fault(timecap: u32, time: u32, pace: Option<Cycle>) -> Result<(), Refusal>
    ensures { result ≡ within (pace_fault timecap time pace) }
{
    match pace {
        Some(c) if !cycle_keeps(timecap, time, c) => Err(Refusal::Input(43)),
        _ => Ok(()),
    }
}

// The first fault among the C and T of the first k types: 43.
pub fn paces_fault(timecap: u32, k: usize, types: [TaskType; TYPE_LIMIT]) -> Result<(), Refusal>
    ensures { result ≡ within (paces_fault timecap k types) }
{
    for t in &types[..k.min(TYPE_LIMIT)] {
        pace_fault(timecap, t.time, t.pace)?;
    }
    Ok(())
}

// A type's u and s on the second kind, where they are given: 8.
pub fn costs_fault(there: Option<Costs>) -> Result<(), Refusal>
    ensures { result ≡ within (costs_fault there) }
{
    match there {
        None => Ok(()),
        Some(c) => size_fault(c.time, c.memory),
    }
}

// The columns of six types, or one more than their limit where they pass it: the true product may pass 64 bits.
pub fn columns_within(types: [TaskType; TYPE_LIMIT]) -> usize
    ensures { result ≡ columns_within types }
{
    let mut product: usize = 1;
    for t in &types {
        product *= t.ceiling as usize + 1;
        if COLUMN_LIMIT < product {
            return COLUMN_LIMIT + 1;
        }
    }
    product
}

// The columns: 10.
pub fn columns_fault(types: [TaskType; TYPE_LIMIT]) -> Result<(), Refusal>
    ensures { result ≡ within (columns_fault types) }
{
    if columns_within(types) > COLUMN_LIMIT {
        return Err(Refusal::Input(10));
    }
    Ok(())
}

// Each of the first k types has its u and s on the second kind exactly where there is one.
fn kinds_agree(one: bool, k: usize, types: [TaskType; TYPE_LIMIT]) -> bool
    ensures { result ≡ kinds_agree one k types }
{
    types.iter().take(k).all(|t| t.there.is_none() == one)
}

// All of the second kind is given, or nothing: 41.
pub fn kinds_fault(y: System) -> Result<(), Refusal>
    ensures { result ≡ within (kinds_fault y) }
{
    if !kinds_agree(y.second.is_none(), y.typecount, y.types) {
        return Err(Refusal::Input(41));
    }
    Ok(())
}

// The entry is one past k.
fn zero_task(t: TaskType) -> bool
    ensures { result ≡ zero_task t }
{
    let none = (t.time == 0) & (t.memory == 0) & (t.ceiling == 0) & (t.data == 0);
    none & t.most.is_none() & t.pace.is_none() & t.there.is_none()
}

// The entry is a type within the limits.
fn sound_task(t: TaskType) -> bool
    ensures { result ≡ sound_task t }
{
    type_fault(t).is_ok() & most_fault(t.most).is_ok() & costs_fault(t.there).is_ok()
}

// The entry at i, where the first k are types.
fn task_keeps(i: usize, k: usize, t: TaskType) -> bool
    ensures { result ≡ cond (ltb i k) (sound_task t) (zero_task t) }
{
    if i < k { sound_task(t) } else { zero_task(t) }
}

// Six entries, the first k within the limits and the others 0, with nothing given.
fn types_keep(k: usize, types: [TaskType; TYPE_LIMIT]) -> bool
    ensures { result ≡ eqb (length types) type_limit && types_keep k types }
{
    types.iter().enumerate().all(|(i, t)| task_keeps(i, k, *t))
}

// Every limit of a card, of one kind of engine or two, and zero entries past k.
fn keeps_card(y: System) -> bool
    ensures { result ≡ keeps_card y }
{
    let k = y.typecount;
    let platform = platform_fault(y.engines, y.rule, y.timecap, y.memorycap).is_ok();
    let counted = platform & (1 <= k) & (k <= TYPE_LIMIT);
    let keep = counted & types_keep(k, y.types) & columns_fault(y.types).is_ok();
    let run = paces_fault(y.timecap, k, y.types).is_ok();
    keep & run & second_fault(y.engines, y.second).is_ok() & kinds_fault(y).is_ok()
}

// Every limit of document 01, zero entries past k, and one kind of engine: a system that a file gives of which a board is opened.
pub fn keeps_limits(y: System) -> bool
    ensures { result ≡ keeps_limits y }
{
    keeps_card(y) & y.second.is_none()
}
