// The plan of a system file, of one kind of engine or two.
//
// An array that is a field goes through a variable of its own into a literal or a call: the check covers no other form.
#![tactic(auto)]

ghost use Rattle.std.specs.Prelude.{◌≡◌, ◌++◌, ◌≤◌, Err, length, take, drop, leb};
ghost use Rattle.system.specs.Limits.{columns, column_limit, engine_limit};
ghost use Rattle.system.specs.Layout.{read_card, read_file};
ghost use Rattle.system.specs.Card.{card_of};
ghost use Rattle.system.specs.Outcome.{from_input, checked_of, check, and_then};
ghost use Rattle.partition.specs.Lent.{lent};
ghost use Rattle.table.specs.Table.{room_check};
ghost use Rattle.planner.specs.Plan.{records_with};
ghost use Rattle.planner.specs.Demands.{PlanPromises};
ghost use Rattle.planner.specs.MixedDemands.{PlanCall, ListCall};
ghost use Rattle.planner.specs.Inner.{refused_plan, plan_from, Lists, TwoKindCard, MixedPlans};

use loads::EngineLoad;
use planner::{EngineRecord, ListPlan, Plan, PlannedList};
use std::array;
use system::{Answer, ENGINE_LIMIT, Kind, Refusal, System};

// The numbers of the engines where there is one kind: load i is that of engine i.
const NUMBERS: [usize; ENGINE_LIMIT] = [1, 2, 3, 4, 5, 6, 7, 8, 9, 10, 11, 12, 13, 14, 15, 16];

// The first `used` records go to the front of the lent list; the others of the list are as they were.
fn put_records(list: &mut [EngineRecord], records: [EngineRecord; ENGINE_LIMIT], used: usize)
    requires { (used ≤ engine_limit) × (used ≤ length list.old) }
    ensures { list.new ≡ take used records ++ drop used list.old }
{
    list[..used].copy_from_slice(&records[..used]);
}

// The records of engines with these numbers. A plan has numbers and loads apart, since a sheet, a run and theorem `PlanKeeps` (crate `clients`) take the loads
// alone; no heap is used, so that arrays of 16 stand beside the number used.
fn records_of(
    numbers: [usize; ENGINE_LIMIT],
    loads: [EngineLoad; ENGINE_LIMIT],
) -> [EngineRecord; ENGINE_LIMIT]
    ensures { result ≡ records_with numbers loads }
{
    array::from_fn(|i| EngineRecord {
        number: numbers[i],
        load: loads[i],
    })
}

// A plan that is refused: no engine holds anything.
fn refused_plan(why: Refusal) -> Plan
    ensures { result ≡ refused_plan (Err why) }
{
    Plan {
        answer: Err(why),
        used: 0,
        typecount: 0,
        numbers: NUMBERS,
        loads: [loads_code::idle_engine(); ENGINE_LIMIT],
    }
}

// What a call hands out: the plan, or the refused one.
fn plan_from(planned: Result<Plan, Refusal>) -> Plan
    ensures { result ≡ plan_from planned }
{
    planned.unwrap_or_else(refused_plan)
}

// Refusal 15: a list of `room` records is shorter than the engines.
fn list_check(engines: usize, room: usize) -> Result<(), Refusal>
    ensures { checked_of result ≡ check (leb engines room) from_input 15 }
{
    if engines <= room {
        return Ok(());
    }
    Err(Refusal::Input(15))
}

// What is lent is judged before any work: 11 for parts of `rows` and of `predecessors` entries, then 15 for a list shorter than the engines, of one kind
// or of both.
fn lent_check(
    y: System,
    rows: usize,
    predecessors: usize,
    engines: usize,
    room: usize,
) -> Result<(), Refusal>
    requires { columns y ≤ column_limit }
    ensures { checked_of result ≡ and_then (room_check y rows predecessors) (check (leb engines room) from_input 15) }
{
    table_code::table_check(y, rows, predecessors)?;
    list_check(engines, room)
}

// The plan of a file of which one kind of engine is wanted, where the list that is to hold it has room for `room` records: refusals 1 to 10, 31 and 41
// to 43, then 11, 15, 12.
fn plan_one(
    file: &[u8],
    rows: &mut [u16],
    predecessors: &mut [u16],
    room: usize,
) -> Result<Plan, Refusal>
    ensures { PlanPromises (read_file file.now) (lent rows.old predecessors.old) room (plan_from result)
        (lent rows.new predecessors.new) }
{
    let read = system_code::read_system(file);
    read.answer?;
    let y = read.system;
    lent_check(y, rows.len(), predecessors.len(), y.engines, room)?;
    let engines = table_code::engines_to(y.engines);
    let placement = table_code::place(
        rows,
        predecessors,
        y,
        engines,
        table_code::ceilings_of(y),
    ).ok_or(Refusal::Input(12))?;
    let loads = placement.loads;
    Ok(Plan {
        answer: Ok(Some(placement.used)),
        used: placement.used,
        typecount: y.typecount,
        numbers: NUMBERS,
        loads,
    })
}

// The plan of a file of which one kind of engine is wanted, by value: a sheet is of one kind only.
pub fn plan_one_kind(file: &[u8], rows: &mut [u16], predecessors: &mut [u16]) -> Plan
    ensures { PlanPromises (read_file file.now) (lent rows.old predecessors.old) engine_limit result
        (lent rows.new predecessors.new) }
{
    plan_from(plan_one(file, rows, predecessors, ENGINE_LIMIT))
}

// The plan of a card of two kinds of engine: 11, 15, 12.
fn plan_mixed(
    y: System,
    k: Kind,
    rows: &mut [u16],
    predecessors: &mut [u16],
    room: usize,
) -> Result<Plan, Refusal>
    requires { TwoKindCard y k }
    ensures { MixedPlans y k (lent rows.old predecessors.old) room (plan_from result) (lent rows.new predecessors.new) }
{
    lent_check(
        y,
        rows.len(),
        predecessors.len(),
        y.engines + k.number,
        room,
    )?;
    let first = system_code::first_kind(y);
    let second = system_code::second_kind(y, k);
    let placed = kinds_code::place_mixed(rows, predecessors, first, second).ok_or(Refusal::Input(
        12,
    ))?;
    let numbers = placed.numbers;
    let loads = placed.loads;
    Ok(Plan {
        answer: Ok(Some(placed.used)),
        used: placed.used,
        typecount: y.typecount,
        numbers,
        loads,
    })
}

// The plan of a file, where the list that is to hold it has room for `room` records: of two kinds of engine, or of one. A file that does not read hands
// out a system of one kind.
fn plan_for(
    file: &[u8],
    rows: &mut [u16],
    predecessors: &mut [u16],
    room: usize,
) -> Result<Plan, Refusal>
    ensures { PlanCall (card_of (read_card file.now)) (lent rows.old predecessors.old) room (plan_from result)
        (lent rows.new predecessors.new) }
{
    let y = system_code::read_card(file).system;
    let Some(k) = y.second else {
        return plan_one(file, rows, predecessors, room);
    };
    plan_mixed(y, k, rows, predecessors, room)
}

// The plan of a file: document 01's "Plan", by value. The lent parts need not be clean.
pub fn plan_of(file: &[u8], rows: &mut [u16], predecessors: &mut [u16]) -> Plan
    ensures { PlanCall (card_of (read_card file.now)) (lent rows.old predecessors.old) engine_limit result
        (lent rows.new predecessors.new) }
{
    plan_from(plan_for(file, rows, predecessors, ENGINE_LIMIT))
}

// The plan for a list of `room` records, with the records that go into it.
fn plan_records(file: &[u8], rows: &mut [u16], predecessors: &mut [u16], room: usize) -> ListPlan
    ensures { Lists (card_of (read_card file.now)) (lent rows.old predecessors.old) room result
        (lent rows.new predecessors.new) }
{
    let plan = plan_from(plan_for(file, rows, predecessors, room));
    ListPlan {
        answer: plan.answer,
        used: plan.used,
        records: records_of(plan.numbers, plan.loads),
    }
}

// The plan of a file into a lent list: a record for each used engine, the later records unchanged. Refused 15 where the list is shorter than the number
// of engines.
pub fn plan_into(
    file: &[u8],
    rows: &mut [u16],
    predecessors: &mut [u16],
    list: &mut [EngineRecord],
) -> Answer
    ensures { ListCall (card_of (read_card file.now)) (lent rows.old predecessors.old) list.old result
        (lent rows.new predecessors.new) list.new }
{
    let plan = plan_records(file, rows, predecessors, list.len());
    put_records(list, plan.records, plan.used);
    plan.answer
}

// The same into a list that is handed over and back: a function that lends no list of its own calls this one.
pub fn plan_list(
    file: &[u8],
    rows: &mut [u16],
    predecessors: &mut [u16],
    list: [EngineRecord; ENGINE_LIMIT],
) -> PlannedList
    ensures { ListCall (card_of (read_card file.now)) (lent rows.old predecessors.old) list result.answer
        (lent rows.new predecessors.new) result.list }
{
    let mut records = list;
    let answer = plan_into(file, rows, predecessors, &mut records);
    PlannedList {
        answer,
        list: records,
    }
}
