// A plan written as a sheet.
//
// The functions that put something into the buffer answer the place after it.
ghost use Rattle.std.specs.Prelude.{◌+◌, ◌*◌, ◌≤◌, ◌<◌, length, take};
ghost use Rattle.buffer.specs.Written.{Puts};
ghost use Rattle.system.specs.Limits.{type_limit};
ghost use Rattle.system.specs.Rules.{head_size};
ghost use Rattle.system.specs.Layout.{read_file};
ghost use Rattle.partition.specs.Lent.{lent};
ghost use Rattle.sheets.specs.Sheet.{record_rule, rule_at, field_size, head_bytes, counts_bytes, record_bytes};
ghost use Rattle.sheets.specs.Sheet.{engine_bytes, engine_size, used_in, records_bytes, sheet_bytes, sheet_size};
ghost use Rattle.sheets.specs.Meaning.{WriteSheetPromises};

use crate::rules::{HEADER, RECORD, body_size, rule_at, sheet_size, used_engines};
use buffer::{put_byte, put_four, put_two};
use loads::EngineLoad;
use system::{Answer, ENGINE_LIMIT, Refusal, TYPE_LIMIT};

// Puts the tag and the length of a field, as the table has them for k types.
fn put_head(out: &mut [u8], at: usize, row: usize, k: usize) -> usize
    requires { (row < 2) × (k ≤ type_limit) × (at + head_size ≤ length out.old) }
    ensures { Puts (head_bytes (rule_at row) k) at out.old out.new result }
{
    let rule = rule_at(row);
    let next = put_byte(out, at, rule.tag);
    put_two(out, next, body_size(row, k) as u16)
}

// Puts the counts of types 1 to k.
fn put_counts(out: &mut [u8], at: usize, k: usize, counts: [u16; TYPE_LIMIT]) -> usize
    requires { (k ≤ type_limit) × (at + 2 * k ≤ length out.old) }
    ensures { Puts (counts_bytes (take k counts)) at out.old out.new result }
{
    let mut next = at;
    for count in &counts[..k] {
        next = put_two(out, next, *count);
    }
    next
}

// Puts the record of engine e: its number, time, memory and counts.
fn put_record(out: &mut [u8], at: usize, k: usize, e: usize, l: EngineLoad) -> usize
    requires { (k ≤ type_limit) × (e < 256) × (at + field_size record_rule k ≤ length out.old) }
    ensures { Puts (record_bytes k e l) at out.old out.new result }
{
    let headed = put_head(out, at, RECORD, k);
    let numbered = put_byte(out, headed, e as u8);
    let timed = put_four(out, numbered, l.time);
    let stored = put_four(out, timed, l.memory);
    put_counts(out, stored, k, l.counts)
}

// Puts the record of an engine that holds an instance; nothing for any other.
fn put_engine(out: &mut [u8], at: usize, k: usize, e: usize, l: EngineLoad) -> usize
    requires { (k ≤ type_limit) × (e < 256) × (at + engine_size k l ≤ length out.old) }
    ensures { Puts (engine_bytes k e l) at out.old out.new result }
{
    if loads_code::holds_none(l.counts) {
        return at;
    }
    put_record(out, at, k, e, l)
}

// Puts the records of the engines that hold an instance, numbers rising.
fn put_records(out: &mut [u8], at: usize, k: usize, loads: [EngineLoad; ENGINE_LIMIT]) -> usize
    requires { (k ≤ type_limit) × (at + used_in loads * field_size record_rule k ≤ length out.old) }
    ensures { Puts (records_bytes k 1 loads) at out.old out.new result }
{
    let mut next = at;
    for (i, l) in loads.iter().enumerate() {
        next = put_engine(out, next, k, i + 1, *l);
    }
    next
}

// Puts the sheet of these engines at the start of the buffer.
pub(crate) fn put_sheet(out: &mut [u8], k: usize, loads: [EngineLoad; ENGINE_LIMIT]) -> usize
    requires { (k ≤ type_limit) × (sheet_size k loads ≤ length out.old) }
    ensures { Puts (sheet_bytes k loads) 0 out.old out.new result }
{
    let headed = put_head(out, 0, HEADER, k);
    let counted = put_byte(out, headed, used_engines(loads) as u8);
    let typed = put_byte(out, counted, k as u8);
    put_records(out, typed, k, loads)
}

// Writes the plan of a file as a sheet at the start of the buffer, and answers its length; or refused 1 to 10, 31 and 41 to 43, then 11, 12, 30, and nothing
// is written.
// The table need not be clean; it is left filled from 12 on. Bytes past the sheet stay as they were.
pub fn write_sheet(
    file: &[u8],
    rows: &mut [u16],
    predecessors: &mut [u16],
    buffer: &mut [u8],
) -> Answer
    ensures { WriteSheetPromises (read_file file.now) (lent rows.old predecessors.old) buffer.old result (lent rows.new predecessors.new) buffer.new }
{
    let plan = planner_code::plan_one_kind(file, rows, predecessors);
    plan.answer?;
    if buffer.len() < sheet_size(plan.typecount, plan.loads) {
        return Err(Refusal::Input(30));
    }
    Ok(Some(put_sheet(buffer, plan.typecount, plan.loads)))
}
