// The table of a sheet's fields, which both the writer and the check ask for tags and lengths. A system file knows nothing of these tags.
ghost use Rattle.std.specs.Prelude.{◌≡◌, ◌≤◌, ◌<◌};
ghost use Rattle.system.specs.Limits.{type_limit};
ghost use Rattle.sheets.specs.Sheet.{rule_at, body_size, field_size, used_in, sheet_size};

use loads::EngineLoad;
use sheets::SheetRule;
use system::ENGINE_LIMIT;
use system_code::HEAD_SIZE;

// The rows of the table.
pub(crate) const HEADER: usize = 0;

pub(crate) const RECORD: usize = 1;

const RULES: [SheetRule; 2] = [
    SheetRule {
        tag: 16,
        body: 2, // used engines, k
        each: 0,
    },
    SheetRule {
        tag: 17,
        body: 9, // number, time, memory
        each: 2, // a count
    },
];

// The table's rule in a row: the definitions name a rule by its row too (`rule_at` of crate `sheets`).
pub(crate) fn rule_at(row: usize) -> SheetRule
    requires { row < 2 }
    ensures { result ≡ rule_at row }
{
    RULES[row]
}

// The bytes of a field's body where there are k types. The bound of k stands in each contract: k comes from a System, which may have any.
pub(crate) fn body_size(row: usize, k: usize) -> usize
    requires { (row < 2) × (k ≤ type_limit) }
    ensures { result ≡ body_size (rule_at row) k }
{
    let rule = rule_at(row);
    rule.body + rule.each * k
}

// The bytes of the whole field.
pub(crate) fn field_size(row: usize, k: usize) -> usize
    requires { (row < 2) × (k ≤ type_limit) }
    ensures { result ≡ field_size (rule_at row) k }
{
    HEAD_SIZE + body_size(row, k)
}

// How many of the engines hold an instance.
pub(crate) fn used_engines(loads: [EngineLoad; ENGINE_LIMIT]) -> usize
    ensures { (result ≡ used_in loads) × (result ≤ 16) }
{
    loads
        .iter()
        .filter(|l| !loads_code::holds_none(l.counts))
        .count()
}

// The bytes of the sheet of these engines.
pub(crate) fn sheet_size(k: usize, loads: [EngineLoad; ENGINE_LIMIT]) -> usize
    requires { k ≤ type_limit }
    ensures { result ≡ sheet_size k loads }
{
    field_size(HEADER, k) + used_engines(loads) * field_size(RECORD, k)
}
