// The reader of system files: the field step, what each field says, and the whole file.
ghost use Rattle.std.specs.Prelude.{◌≡◌, ◌<◌, get_or, drop};
ghost use Rattle.system.specs.Inner.{part_of, Typed, PastTypes, BodyReady};
ghost use Rattle.system.specs.Limits.{type_limit};
ghost use Rattle.system.specs.Outcome.{or_input};
ghost use Rattle.system.specs.Layout.{word2, word4, headed_field, whole_field, field_at, tag_at, length_at, body_at, next_at};
ghost use Rattle.system.specs.Layout.{head_of, seen_of, field_of, body_of, end_of, read_card, read_file, Reading, Reads, read_result};
ghost use Rattle.system.specs.Layout.{platform_of, type_of, data_of, most_of, pace_of, second_of, costs_of};

use crate::rules::{COSTS, DATA, MOST, PACE, SECOND, TYPE};
use crate::{limits, rules, values};
use system::{Costs, Cursor, Cycle, Field, FieldRule, Opened, Refusal, System};

// The bytes before a field's body: its tag and its length.
pub const HEAD_SIZE: usize = 3;

// The byte at i, 0 past the end.
pub fn byte_at(s: &[u8], i: usize) -> u8
    ensures { result ≡ get_or s.now i 0 }
{
    s.get(i).copied().unwrap_or(0)
}

// Unsigned numbers of two and of four bytes, most significant byte first, 0 for a byte past the end: so they are reckoned from `byte_at`, as `word2` and
// `word4` are defined, and not made of an array by `from_be_bytes`.
pub fn two_bytes(s: &[u8], i: usize) -> u16
    requires { i < 64 }
    ensures { result ≡ word2 s.now i }
{
    (byte_at(s, i) as u16) * 256 + (byte_at(s, i + 1) as u16)
}

pub fn four_bytes(s: &[u8], i: usize) -> u32
    requires { i < 32 }
    ensures { result ≡ word4 s.now i }
{
    (two_bytes(s, i) as u32) * 65536 + (two_bytes(s, i + 2) as u32)
}

// What is left of a file from a cursor on, as a part of it. Where there is nothing, here, in `body_at` and in `body_part`, the answer is an empty part of the
// file itself, which a default of `get` would not be.
pub fn rest_at(file: &[u8], c: Cursor) -> &[u8]
    ensures { result.now ≡ drop c.at file.now }
{
    let at = c.at;
    if at <= file.len() {
        &file[at..]
    } else {
        &file[..0]
    }
}

// The field step at a cursor: the body of the field there, as a part of the caller's file, empty where no whole field stands.
pub fn body_at(file: &[u8], c: Cursor) -> &[u8]
    ensures { result.now ≡ body_at file.now c.at }
{
    let rest = rest_at(file, c);
    let size = length_at(file, c) as usize;
    if whole_at(file, c) {
        let end = HEAD_SIZE + size;
        &rest[HEAD_SIZE..end]
    } else {
        &rest[..0]
    }
}

// Beside it the field's tag and its length, with 0 for a byte past the file's end,
pub fn tag_at(file: &[u8], c: Cursor) -> u8
    ensures { result ≡ tag_at file.now c.at }
{
    byte_at(rest_at(file, c), 0)
}

pub fn length_at(file: &[u8], c: Cursor) -> u16
    ensures { result ≡ length_at file.now c.at }
{
    two_bytes(rest_at(file, c), 1)
}

// and the cursor past the field, the same one where no whole field stands.
pub fn next_at(file: &[u8], c: Cursor) -> Cursor
    ensures { result ≡ next_at file.now c.at }
{
    let size = length_at(file, c) as usize;
    if whole_at(file, c) {
        return Cursor {
            at: c.at + (HEAD_SIZE + size),
        };
    }
    c
}

// Whether a field's tag and length stand at a cursor, and whether all of it does.
fn headed_at(file: &[u8], c: Cursor) -> bool
    ensures { result ≡ headed_field (drop c.at file.now) }
{
    let rest = rest_at(file, c);
    HEAD_SIZE <= rest.len()
}

fn whole_at(file: &[u8], c: Cursor) -> bool
    ensures { result ≡ whole_field (drop c.at file.now) }
{
    let rest = rest_at(file, c);
    let size = length_at(file, c) as usize;
    HEAD_SIZE + size <= rest.len()
}

// The field step in one answer: what stands at a cursor, and the cursor past it.
pub fn field_at(file: &[u8], c: Cursor) -> Field
    ensures { result ≡ field_at file.now c.at }
{
    let rest = rest_at(file, c);
    let left = rest.len();
    let tag = byte_at(rest, 0);
    let size = two_bytes(rest, 1) as usize;
    let cut = Field {
        tag,
        size,
        headed: HEAD_SIZE <= left,
        whole: false,
        start: c.at,
        next: c,
    };
    if left < HEAD_SIZE + size {
        return cut;
    }
    Field {
        whole: true,
        start: c.at + HEAD_SIZE,
        next: Cursor {
            at: c.at + (HEAD_SIZE + size),
        },
        ..cut
    }
}

// The body of a field that it answered, as a part of the caller's file.
pub fn body_part(file: &[u8], field: Field) -> &[u8]
    ensures { result.now ≡ part_of file.now field.start field.next.at }
{
    let start = field.start;
    let end = field.next.at;
    if (start <= end) & (end <= file.len()) {
        &file[start..end]
    } else {
        &file[..0]
    }
}

// The head of the field at a cursor: refused 1 (start cut), 2, 3, 4, 1 (body cut) in this order.
fn head_of(file: &[u8], c: Cursor, last: u8) -> Result<FieldRule, Refusal>
    ensures { result ≡ or_input (head_of (drop c.at file.now) last) }
{
    if !headed_at(file, c) {
        return Err(Refusal::Input(1));
    }
    let Some(rule) = rules::rule_of(tag_at(file, c)) else {
        return Err(Refusal::Input(2));
    };
    if !rules::may_follow(last, rule.tag) {
        return Err(Refusal::Input(3));
    }
    if length_at(file, c) as usize != rule.body {
        return Err(Refusal::Input(4));
    }
    if !whole_at(file, c) {
        return Err(Refusal::Input(1));
    }
    Ok(rule)
}

// How many fields of this tag were read before, where their number decides: that of types. Any other field stands
// only where `may_follow` lets it: a platform and a second kind once, all others once for each type.
fn seen_of(tag: u8, y: System) -> usize
    ensures { result ≡ seen_of tag y }
{
    if tag == TYPE { y.typecount } else { 0 }
}

// A platform's body: m, rule, U, S.
fn platform_of(b: &[u8], y: System) -> Result<System, Refusal>
    ensures { result ≡ read_result (platform_of b.now y) }
{
    let m = byte_at(b, 0) as usize;
    let rule = byte_at(b, 1);
    let time = four_bytes(b, 2);
    let memory = four_bytes(b, 6);
    limits::platform_fault(m, rule, time, memory)?;
    Ok(values::with_platform(m, rule, time, memory, y))
}

// A type's body: u, s, n.
fn type_of(b: &[u8], y: System) -> Result<System, Refusal>
    requires { y.typecount < type_limit }
    ensures { result ≡ read_result (type_of b.now y) }
{
    let t = values::task_of(four_bytes(b, 0), four_bytes(b, 4), two_bytes(b, 8));
    limits::type_fault(t)?;
    Ok(values::with_type(t, y))
}

// The body of a type's data memory: d, for the last type. `Typed`, that a type was read, stands in six contracts: a caller may hand in any System, so that no
// invariant of it can say it.
fn data_of(b: &[u8], y: System) -> Result<System, Refusal>
    requires { Typed y }
    ensures { result ≡ read_result (data_of b.now y) }
{
    let t = values::with_data(four_bytes(b, 0), values::last_type(y));
    limits::type_fault(t)?;
    Ok(values::with_last(t, y))
}

// The body of a type's q, for the last type.
fn most_of(b: &[u8], y: System) -> Result<System, Refusal>
    requires { Typed y }
    ensures { result ≡ read_result (most_of b.now y) }
{
    let q = two_bytes(b, 0);
    limits::most_fault(Some(q))?;
    Ok(values::with_last(values::with_most(q, values::last_type(y)), y))
}

// The body of a type's C and T, for the last type.
fn pace_of(b: &[u8], y: System) -> Result<System, Refusal>
    requires { Typed y }
    ensures { result ≡ read_result (pace_of b.now y) }
{
    let run = four_bytes(b, 0);
    let period = four_bytes(b, 4);
    let last = values::last_type(y);
    limits::pace_fault(y.timecap, last.time, Some(Cycle { run, period }))?;
    Ok(values::with_last(values::with_pace(run, period, last), y))
}

// The body of a second kind of engine: its number, U, S.
fn second_of(b: &[u8], y: System) -> Result<System, Refusal>
    ensures { result ≡ read_result (second_of b.now y) }
{
    let n = byte_at(b, 0) as usize;
    let time = four_bytes(b, 1);
    let memory = four_bytes(b, 5);
    limits::kind_fault(y.engines, n, time, memory)?;
    Ok(values::with_second(n, time, memory, y))
}

// The body of a type's u and s on the second kind, for the last type.
fn costs_of(b: &[u8], y: System) -> Result<System, Refusal>
    requires { Typed y }
    ensures { result ≡ read_result (costs_of b.now y) }
{
    let time = four_bytes(b, 0);
    let memory = four_bytes(b, 4);
    limits::costs_fault(Some(Costs { time, memory }))?;
    Ok(values::with_last(values::with_costs(time, memory, values::last_type(y)), y))
}

// A field's body, where its head has a rule: 7, then what its tag says of it. A tag stays a number: the file has it, the tables of `rules` go by it, and so
// does `body_of` of crate `system`.
fn body_of(rule: FieldRule, b: &[u8], y: System) -> Result<System, Refusal>
    requires { BodyReady rule y }
    ensures { result ≡ read_result (body_of rule b.now y) }
{
    if rule.allowed <= seen_of(rule.tag, y) {
        return Err(Refusal::Input(7));
    }
    match rule.tag {
        TYPE => type_of(b, y),
        DATA => data_of(b, y),
        MOST => most_of(b, y),
        PACE => pace_of(b, y),
        SECOND => second_of(b, y),
        COSTS => costs_of(b, y),
        _ => platform_of(b, y),
    }
}

// The field at a cursor: its head, then its body.
fn field_of(file: &[u8], c: Cursor, last: u8, y: System) -> Result<System, Refusal>
    requires { PastTypes last → Typed y }
    ensures { result ≡ read_result (field_of (drop c.at file.now) last y) }
{
    let rule = head_of(file, c, last)?;
    body_of(rule, body_at(file, c), y)
}

// The end of the file: 9, 41, 10.
fn end_of(last: u8, y: System) -> Result<System, Refusal>
    ensures { result ≡ read_result (end_of last y) }
{
    if (last == 0) | (y.typecount == 0) {
        return Err(Refusal::Input(9));
    }
    limits::kinds_fault(y)?;
    limits::columns_fault(y.types)?;
    Ok(y)
}

// The fields one after the other, and then the end.
fn card_of(file: &[u8]) -> Result<System, Refusal>
    ensures { result ≡ read_result (read_card file.now) }
{
    let mut c = Cursor { at: 0 };
    let mut last: u8 = 0;
    let mut y = values::blank_system();
    // No count of fields is known: where the next one starts is read from this one.
    while c.at < file.len() {
        y = field_of(file, c, last, y)?;
        last = tag_at(file, c);
        c = next_at(file, c);
    }
    end_of(last, y)
}

// A card where one kind of engine is wanted: 42 where it has two.
fn one_kind_of(file: &[u8]) -> Result<System, Refusal>
    ensures { result ≡ read_result (read_file file.now) }
{
    let y = card_of(file)?;
    if y.second.is_some() {
        return Err(Refusal::Input(42));
    }
    Ok(y)
}

// A refusal hands out the blank system.
fn opened(read: Result<System, Refusal>) -> Opened
    ensures { (x : Reading) → read ≡ read_result x → Reads x result }
{
    match read {
        Ok(system) => Opened {
            answer: Ok(None),
            system,
        },
        Err(why) => Opened {
            answer: Err(why),
            system: values::blank_system(),
        },
    }
}

// The system of a file, of one kind of engine or two, or refusals 1 to 10, 31, 41 and 43.
// `Reads`, which other crates' theorems cite, has the answer and the blank system beside it: so this is `Opened`, and no Result.
pub fn read_card(file: &[u8]) -> Opened
    ensures { Reads (read_card file.now) result }
{
    opened(card_of(file))
}

// The system of a file that is wanted of one kind of engine: 42 where it has two.
pub fn read_system(file: &[u8]) -> Opened
    ensures { Reads (read_file file.now) result }
{
    opened(one_kind_of(file))
}
