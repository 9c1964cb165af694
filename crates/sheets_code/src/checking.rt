// A sheet checked against its system file. Its records are taken out without judging them; its layout is right exactly where the sheet of what was taken is
// the sheet itself.
ghost use Rattle.std.specs.Prelude.{◌≡◌, true, map, ◌≤◌, ◌<◌, length, eqb};
ghost use Rattle.system.specs.declared.TaskType.{TaskType};
ghost use Rattle.system.specs.Limits.{type_limit};
ghost use Rattle.system.specs.Layout.{read_file};
ghost use Rattle.system.specs.Outcome.{checked_of};
ghost use Rattle.partition.specs.Listing.{same_list};
ghost use Rattle.partition.specs.Lent.{lent};
ghost use Rattle.sheets.specs.Sheet.{stated_count, stated_counts, stated_load, taken_at, loads_in};
ghost use Rattle.sheets.specs.Checking.{layout_check, sums_check, totals_check, records_check};
ghost use Rattle.sheets.specs.Meaning.{CheckPromises};

use crate::rules::{HEADER, RECORD, field_size, used_engines};
use crate::writing::put_sheet;
use loads::EngineLoad;
use loads_code::idle_engine;
use sheets::{SHEET_BYTES, Taken};
use system::{Cursor, ENGINE_LIMIT, Refusal, System, TYPE_LIMIT, TaskType};
use system_code::{HEAD_SIZE, byte_at, four_bytes, rest_at, two_bytes};

// Where a record's time stands, after its head and its number, and where its memory does.
const TIME: usize = 4;

const MEMORY: usize = 8;

// The count of the type at index t in a record of k types: it stands where a record of t types would end. 0 past k.
fn count_in(rest: &[u8], k: usize, t: usize) -> u16
    requires { t < type_limit }
    ensures { result ≡ stated_count k rest.now t }
{
    if t < k {
        return two_bytes(rest, field_size(RECORD, t));
    }
    0
}

// The counts of a record of k types: t is the number of a type, and no list holds what is read.
fn counts_in(rest: &[u8], k: usize) -> [u16; TYPE_LIMIT]
    ensures { result ≡ stated_counts k rest.now }
{
    let mut counts: [u16; TYPE_LIMIT] = [0; TYPE_LIMIT];
    for t in 0..TYPE_LIMIT {
        counts[t] = count_in(rest, k, t);
    }
    counts
}

// What a record states of its engine.
fn load_in(rest: &[u8], k: usize) -> EngineLoad
    ensures { result ≡ stated_load k rest.now }
{
    let counts = counts_in(rest, k);
    EngineLoad {
        time: four_bytes(rest, TIME),
        memory: four_bytes(rest, MEMORY),
        counts,
    }
}

// What the sheet has for engine e of m where its next record starts at `at`.
fn taken_at(sheet: &[u8], m: usize, k: usize, at: usize, e: usize) -> Taken
    requires { (k ≤ type_limit) × (at ≤ 389) }
    ensures { result ≡ taken_at m k sheet.now at e }
{
    let rest = rest_at(sheet, Cursor { at });
    if (byte_at(rest, HEAD_SIZE) as usize == e) & (e <= m) {
        let load = load_in(rest, k);
        return Taken {
            load,
            next: at + field_size(RECORD, k),
        };
    }
    Taken {
        load: idle_engine(),
        next: at,
    }
}

// What the sheet states of each engine: one pass over the engines and the records, both rising.
fn loads_in(sheet: &[u8], m: usize, k: usize) -> [EngineLoad; ENGINE_LIMIT]
    requires { k ≤ type_limit }
    ensures { result ≡ loads_in m k sheet.now }
{
    let mut loads = [idle_engine(); ENGINE_LIMIT];
    let mut at = field_size(HEADER, k);
    for i in 0..ENGINE_LIMIT {
        let taken = taken_at(sheet, m, k, at, i + 1);
        loads[i] = taken.load;
        at = taken.next;
    }
    loads
}

// Refusal 32: the sheet is not the one of these records.
fn layout_check(sheet: &[u8], k: usize, loads: [EngineLoad; ENGINE_LIMIT]) -> Result<(), Refusal>
    requires { k ≤ type_limit }
    ensures { checked_of result ≡ layout_check k sheet.now loads }
{
    let mut copy = [0u8; SHEET_BYTES];
    let size = put_sheet(&mut copy, k, loads);
    if sheet == &copy[..size] {
        return Ok(());
    }
    Err(Refusal::Input(32))
}

// Refusal 33: a stated sum is not that of the counts, or they do not fit.
fn sums_check(y: System, loads: [EngineLoad; ENGINE_LIMIT]) -> Result<(), Refusal>
    ensures { checked_of result ≡ sums_check y loads }
{
    if board_code::true_loads(y, loads) {
        return Ok(());
    }
    Err(Refusal::Input(33))
}

// Whether every total is its type's ceiling.
fn totals_match(sum: [u32; TYPE_LIMIT], types: [TaskType; TYPE_LIMIT]) -> bool
    ensures { result ≡ same_list eqb sum (map (λ (t : TaskType). t.ceiling) types) }
{
    sum.iter()
        .zip(&types)
        .all(|(all, task)| *all == task.ceiling as u32)
}

// Refusal 34: the counts of a type do not add up to its ceiling.
fn totals_check(y: System, loads: [EngineLoad; ENGINE_LIMIT]) -> Result<(), Refusal>
    ensures { checked_of result ≡ totals_check y loads }
{
    let sum = board_code::total(loads);
    if totals_match(sum, y.types) {
        return Ok(());
    }
    Err(Refusal::Input(34))
}

// The sheet and the records taken from it are judged: 32, 33, 34.
fn records_check(sheet: &[u8], y: System, loads: [EngineLoad; ENGINE_LIMIT]) -> Result<(), Refusal>
    requires { y.typecount ≤ type_limit }
    ensures { checked_of result ≡ records_check y sheet.now loads }
{
    layout_check(sheet, y.typecount, loads)?;
    sums_check(y, loads)?;
    totals_check(y, loads)
}

// Checks a sheet against its system file: right, with whether some good assignment uses fewer engines; or refused 1 to 10, 31 and 41 to 43, then 11, 32, 33,
// 34.
// The table need not be clean, and is filled only for a sheet that is right.
pub fn check_sheet(
    file: &[u8],
    sheet: &[u8],
    rows: &mut [u16],
    predecessors: &mut [u16],
) -> Result<bool, Refusal>
    ensures { CheckPromises (read_file file.now) sheet.now (lent rows.old predecessors.old) result (lent rows.new predecessors.new) }
{
    let opened = system_code::read_system(file);
    opened.answer?;
    let y = opened.system;
    table_code::table_check(y, rows.len(), predecessors.len())?;
    let loads = loads_in(sheet, y.engines, y.typecount);
    records_check(sheet, y, loads)?;
    let engines = table_code::engines_to(y.engines);
    // A right sheet is a good assignment, so that there is a placement.
    let placement = table_code::place(
        rows,
        predecessors,
        y,
        engines,
        table_code::ceilings_of(y),
    ).ok_or(Refusal::Input(12))?;
    Ok(placement.used < used_engines(loads))
}
