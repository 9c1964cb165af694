// Filling a table, and planning. Of a plan of one kind of engine it is also said that no run of one of its engines misses a deadline.
ghost use Rattle.std.specs.Prelude.{[], ◌∷◌, ◌≡◌, length};
ghost use Rattle.system.specs.declared.System.{System};
ghost use Rattle.system.specs.Layout.{read_card, read_file, opened};
ghost use Rattle.system.specs.Card.{card_of};
ghost use Rattle.system.specs.Outcome.{accepted, refused, from_input, outcome_of};
ghost use Rattle.partition.specs.Lent.{lent};
ghost use Rattle.partition.specs.Plain.{columns_out};
ghost use Rattle.table.specs.Meaning.{FillCall, NeedPromises};
ghost use Rattle.planner.specs.Demands.{PlanPromises};
ghost use Rattle.planner.specs.MixedDemands.{PlanCall, ListCall};
ghost use Rattle.clients.specs.Wide.{Says11, Says12, Says15, PlanKeeps, ListKeeps};

use planner::{EngineRecord, Plan, PlannedList};
use system::{Answer, COLUMN_LIMIT, ENGINE_LIMIT};

pub fn columns_needed(file: &[u8]) -> Answer
    ensures need_promises { NeedPromises (read_card file.now) result }
    ensures result_value { (y : System) → read_card file.now ≡ opened y → outcome_of result ≡ accepted (columns_out y ∷ []) }
{
    table_code::columns_needed(file)
}

pub fn fill_table(file: &[u8], rows: &mut [u16], predecessors: &mut [u16]) -> Answer
    ensures fill_call { FillCall (card_of (read_card file.now)) (lent rows.old predecessors.old) result (lent rows.new predecessors.new) }
    ensures says11 { Says11 (read_card file.now) rows.old predecessors.old (outcome_of result ≡ refused from_input 11) }
{
    table_code::fill_table(file, rows, predecessors)
}

pub fn plan_one_kind(file: &[u8], rows: &mut [u16], predecessors: &mut [u16]) -> Plan
    ensures plan_promises { PlanPromises (read_file file.now) (lent rows.old predecessors.old) 16 result (lent rows.new predecessors.new) }
    ensures says11 { Says11 (read_file file.now) rows.old predecessors.old (outcome_of result.answer ≡ refused from_input 11) }
{
    planner_code::plan_one_kind(file, rows, predecessors)
}

pub fn plan_of(file: &[u8], rows: &mut [u16], predecessors: &mut [u16]) -> Plan
    ensures plan_call { PlanCall (card_of (read_card file.now)) (lent rows.old predecessors.old) 16 result (lent rows.new predecessors.new) }
    ensures says11 { Says11 (read_card file.now) rows.old predecessors.old (outcome_of result.answer ≡ refused from_input 11) }
    ensures says12 { Says12 (read_card file.now) rows.old predecessors.old 16 (outcome_of result.answer) }
    ensures plan_keeps { PlanKeeps file.now result.loads (outcome_of result.answer) }
{
    planner_code::plan_of(file, rows, predecessors)
}

pub fn plan_list(
    file: &[u8],
    rows: &mut [u16],
    predecessors: &mut [u16],
    list: [EngineRecord; ENGINE_LIMIT],
) -> PlannedList
    ensures list_call { ListCall (card_of (read_card file.now)) (lent rows.old predecessors.old) list result.answer (lent rows.new predecessors.new) result.list }
    ensures says11 { Says11 (read_card file.now) rows.old predecessors.old (outcome_of result.answer ≡ refused from_input 11)
        × Says15 (read_card file.now) rows.old predecessors.old (length list) (outcome_of result.answer) }
    ensures says12 { Says12 (read_card file.now) rows.old predecessors.old (length list) (outcome_of result.answer) }
    ensures list_keeps { ListKeeps file.now result.list (outcome_of result.answer) }
{
    planner_code::plan_list(file, rows, predecessors, list)
}

pub fn plan_into(
    file: &[u8],
    rows: &mut [u16],
    predecessors: &mut [u16],
    list: &mut [EngineRecord],
) -> Answer
    ensures { ListCall (card_of (read_card file.now)) (lent rows.old predecessors.old) list.old result (lent rows.new predecessors.new) list.new
        × Says11 (read_card file.now) rows.old predecessors.old (outcome_of result ≡ refused from_input 11)
        × Says15 (read_card file.now) rows.old predecessors.old (length list.old) (outcome_of result)
        × Says12 (read_card file.now) rows.old predecessors.old (length list.old) (outcome_of result)
        × ListKeeps file.now list.new (outcome_of result) }
{
    planner_code::plan_into(file, rows, predecessors, list)
}

// The entries of each part that are enough for every system.
pub fn column_limit() -> usize
    ensures { result ≡ 4096 }
{
    COLUMN_LIMIT
}
