// The writer of system files: request 2026-01, with the d of request 2026-03, the q of 2026-04, the second kind of 2026-13 and the C and T of 2026-14.
// A system within document 01's limits becomes the bytes that the reader reads as it; what it writes is defined in crate `writer`.
//
// The functions that put something into the buffer answer the place after it. Tag and length of a field are asked of the reader's own table of field rules.
#![tactic(auto)]

ghost use Rattle.std.specs.Prelude.{◌≡◌, ◌+◌, ◌≤◌, cond, length, take};
ghost use Rattle.buffer.specs.Written.{Puts};
ghost use Rattle.system.specs.Limits.{engine_limit, type_limit, platform_fault, second_fault};
ghost use Rattle.system.specs.Outcome.{within};
ghost use Rattle.system.specs.Rules.{platform_rule, field_rules, rule_of, head_size, ruled_size};
ghost use Rattle.writer.specs.File.{head_bytes, found_size, platform_bytes, second_bytes};
ghost use Rattle.writer.specs.File.{data_bytes, most_bytes, pace_bytes, costs_bytes, type_bytes, types_bytes, file_of};
ghost use Rattle.writer.specs.Writing.{count_fault, engines_fault, task_fault, types_fault, mosts_fault, types_limits, system_fault, write_fault};
ghost use Rattle.writer.specs.Inner.{SecondFits};
ghost use Rattle.writer.specs.Meaning.{WritePromises};

use buffer::{put_byte, put_four, put_two};
use system::{Answer, Costs, Cycle, FieldRule, Kind, Refusal, System, TYPE_LIMIT, TaskType};
use system_code::{
    COSTS, DATA, HEAD_SIZE, MOST, PACE, PLATFORM, SECOND, TYPE, cleared, columns_fault,
    costs_fault, kinds_fault, most_fault, paces_fault, platform_fault, rule_of, second_fault,
    type_fault,
};

// The number of types: 7, 9.
fn count_fault(typecount: usize) -> Result<(), Refusal>
    ensures { result ≡ within (count_fault typecount) }
{
    if typecount > TYPE_LIMIT {
        return Err(Refusal::Input(7));
    }
    if typecount == 0 {
        return Err(Refusal::Input(9));
    }
    Ok(())
}

// A type's u, s and d, and its u and s on the second kind: 8.
fn task_fault(t: TaskType) -> Result<(), Refusal>
    ensures { result ≡ within (task_fault t) }
{
    type_fault(t)?;
    costs_fault(t.there)
}

// The first fault among six types: 8. This and the next stay two loops of a line: one over a test that is passed in would need the test's clause once more.
fn types_fault(types: [TaskType; TYPE_LIMIT]) -> Result<(), Refusal>
    ensures { result ≡ within (types_fault types) }
{
    for t in &types {
        task_fault(*t)?;
    }
    Ok(())
}

// The first fault among the q of six types: 31.
fn mosts_fault(types: [TaskType; TYPE_LIMIT]) -> Result<(), Refusal>
    ensures { result ≡ within (mosts_fault types) }
{
    for t in &types {
        most_fault(t.most)?;
    }
    Ok(())
}

// The platform and the second kind as one: 5, 6, 8. A 5 of the second kind comes before the platform's 6 and 8.
fn engines_fault(y: System) -> Result<(), Refusal>
    ensures { result ≡ within (engines_fault (platform_fault y.engines y.rule y.timecap y.memorycap) (second_fault y.engines y.second)) }
{
    let second = second_fault(y.engines, y.second);
    if let Err(Refusal::Input(5)) = second {
        return second;
    }
    platform_fault(y.engines, y.rule, y.timecap, y.memorycap)?;
    second
}

// The limits of the types on engines with this U, in the order 8, 31, 43, 10.
fn types_limits(timecap: u32, types: [TaskType; TYPE_LIMIT]) -> Result<(), Refusal>
    ensures { result ≡ within (types_limits timecap types) }
{
    types_fault(types)?;
    mosts_fault(types)?;
    paces_fault(timecap, TYPE_LIMIT, types)?;
    columns_fault(types)
}

// The limits of a system, in the order 7, 9, 41, 5, 6, 8, 31, 43, 10. What stands past k is not judged: it is cleared first.
fn system_fault(y: System) -> Result<(), Refusal>
    ensures { result ≡ within (system_fault y) }
{
    count_fault(y.typecount)?;
    kinds_fault(y)?;
    engines_fault(y)?;
    types_limits(y.timecap, cleared(y).types)
}

// The bytes of a whole field of this tag; none where the table has no rule for it. A closure for `map_or` would have to ask that the sum fits.
fn field_size(tag: u8) -> usize
    ensures { result ≡ found_size (rule_of field_rules tag) }
{
    match rule_of(tag) {
        None => 0,
        Some(rule) => HEAD_SIZE + rule.body,
    }
}

// The bytes of a field of this tag where it is there, and none where it is not.
fn size_if(there: bool, tag: u8) -> usize
    ensures { result ≡ cond there (found_size (rule_of field_rules tag)) 0 }
{
    if there { field_size(tag) } else { 0 }
}

// The bytes of a type, with those of its d, its q, its C and T, and its u and s on the second kind.
fn type_size(t: TaskType) -> usize
    ensures { result ≡ length (type_bytes t) }
{
    field_size(TYPE)
        + size_if(t.data != 0, DATA)
        + size_if(t.most.is_some(), MOST)
        + size_if(t.pace.is_some(), PACE)
        + size_if(t.there.is_some(), COSTS)
}

// The bytes of the first `typecount` types. `sum` would ask, before it adds them, that the sizes fit: the loop says so as it goes.
fn types_size(types: [TaskType; TYPE_LIMIT], typecount: usize) -> usize
    requires { typecount ≤ type_limit }
    ensures { result ≡ length (types_bytes (take typecount types)) }
{
    let mut size: usize = 0;
    for t in &types[..typecount] {
        size += type_size(*t);
    }
    size
}

// The bytes of a system's file.
fn file_size(y: System) -> usize
    requires { y.typecount ≤ type_limit }
    ensures { result ≡ length (file_of y) }
{
    field_size(PLATFORM) + size_if(y.second.is_some(), SECOND) + types_size(y.types, y.typecount)
}

// All that refuses a system, with 30 for a buffer of `room` bytes that is too short.
fn write_fault(y: System, room: usize) -> Result<(), Refusal>
    ensures { result ≡ within (write_fault y room) }
{
    system_fault(y)?;
    if room < file_size(y) {
        return Err(Refusal::Input(30));
    }
    Ok(())
}

// Puts the tag and the length of a field, as the table has them; nothing where it has no rule for the tag.
fn put_head(out: &mut [u8], at: usize, tag: u8) -> usize
    requires { at + head_size ≤ length out.old }
    ensures { Puts (head_bytes (rule_of field_rules tag)) at out.old out.new result }
{
    let Some(rule) = rule_of(tag) else {
        return at;
    };
    let next = put_byte(out, at, rule.tag);
    put_two(out, next, rule.body as u16)
}

// Puts the platform at the start: m, rule, U, S.
fn put_platform(out: &mut [u8], y: System) -> usize
    requires { (ruled_size platform_rule ≤ length out.old) × (y.engines ≤ engine_limit) }
    ensures { Puts (platform_bytes y) 0 out.old out.new result }
{
    let headed = put_head(out, 0, PLATFORM);
    let counted = put_byte(out, headed, y.engines as u8);
    let ruled = put_byte(out, counted, y.rule);
    let timed = put_four(out, ruled, y.timecap);
    put_four(out, timed, y.memorycap)
}

// Puts a second kind of engine: its number, U, S; nothing where it is not given.
fn put_second(out: &mut [u8], at: usize, second: Option<Kind>) -> usize
    requires { SecondFits second × (at + length (second_bytes second) ≤ length out.old) }
    ensures { Puts (second_bytes second) at out.old out.new result }
{
    let Some(k) = second else {
        return at;
    };
    let headed = put_head(out, at, SECOND);
    let counted = put_byte(out, headed, k.number as u8);
    let timed = put_four(out, counted, k.timecap);
    put_four(out, timed, k.memorycap)
}

// Puts the d of a type; nothing where it is 0.
fn put_data(out: &mut [u8], at: usize, d: u32) -> usize
    requires { at + length (data_bytes d) ≤ length out.old }
    ensures { Puts (data_bytes d) at out.old out.new result }
{
    if d == 0 {
        return at;
    }
    let headed = put_head(out, at, DATA);
    put_four(out, headed, d)
}

// Puts the q of a type; nothing where it is not given.
fn put_most(out: &mut [u8], at: usize, most: Option<u16>) -> usize
    requires { at + length (most_bytes most) ≤ length out.old }
    ensures { Puts (most_bytes most) at out.old out.new result }
{
    let Some(q) = most else {
        return at;
    };
    let headed = put_head(out, at, MOST);
    put_two(out, headed, q)
}

// Puts the C and T of a type; nothing where they are not given.
fn put_pace(out: &mut [u8], at: usize, pace: Option<Cycle>) -> usize
    requires { at + length (pace_bytes pace) ≤ length out.old }
    ensures { Puts (pace_bytes pace) at out.old out.new result }
{
    let Some(c) = pace else {
        return at;
    };
    let headed = put_head(out, at, PACE);
    let run = put_four(out, headed, c.run);
    put_four(out, run, c.period)
}

// Puts the u and s of a type on the second kind; nothing where they are not given. It is not one function with `put_pace`: two numbers to pass along would not
// say which are C and T and which u and s.
fn put_costs(out: &mut [u8], at: usize, there: Option<Costs>) -> usize
    requires { at + length (costs_bytes there) ≤ length out.old }
    ensures { Puts (costs_bytes there) at out.old out.new result }
{
    let Some(c) = there else {
        return at;
    };
    let headed = put_head(out, at, COSTS);
    let timed = put_four(out, headed, c.time);
    put_four(out, timed, c.memory)
}

// Puts one type: u, s, n, and then its d, its q, its C and T, and its u and s on the second kind.
fn put_type(out: &mut [u8], at: usize, t: TaskType) -> usize
    requires { at + length (type_bytes t) ≤ length out.old }
    ensures { Puts (type_bytes t) at out.old out.new result }
{
    let headed = put_head(out, at, TYPE);
    let timed = put_four(out, headed, t.time);
    let stored = put_four(out, timed, t.memory);
    let limited = put_two(out, stored, t.ceiling);
    let loaded = put_data(out, limited, t.data);
    let kept = put_most(out, loaded, t.most);
    let paced = put_pace(out, kept, t.pace);
    put_costs(out, paced, t.there)
}

// Puts the first `typecount` types.
fn put_types(out: &mut [u8], at: usize, types: [TaskType; TYPE_LIMIT], typecount: usize) -> usize
    requires { (typecount ≤ type_limit) × (at + length (types_bytes (take typecount types)) ≤ length out.old) }
    ensures { Puts (types_bytes (take typecount types)) at out.old out.new result }
{
    let mut next = at;
    for t in &types[..typecount] {
        next = put_type(out, next, *t);
    }
    next
}

// Puts the file of a system at the start of the buffer.
fn put_file(out: &mut [u8], y: System) -> usize
    requires { (y.engines ≤ engine_limit) × SecondFits y.second × (y.typecount ≤ type_limit) × (length (file_of y) ≤ length out.old) }
    ensures { Puts (file_of y) 0 out.old out.new result }
{
    let equipped = put_platform(out, y);
    let next = put_second(out, equipped, y.second);
    put_types(out, next, y.types, y.typecount)
}

// Writes the file of a system at the start of the buffer, and answers its length; or 7, 9, 41, 5, 6, 8, 31, 43, 10, 30 in this order, and nothing is written.
// Types past k are neither judged nor written. Bytes past the file stay as they were.
pub fn write_system(y: System, out: &mut [u8]) -> Answer
    ensures { WritePromises y out.old out.new result }
{
    write_fault(y, out.len())?;
    Ok(Some(put_file(out, y)))
}
