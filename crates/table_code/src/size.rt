// How much of a lent table a system needs.
ghost use Rattle.std.specs.Prelude.{◌≡◌, ◌≤◌};
ghost use Rattle.system.specs.Limits.{columns, column_limit};
ghost use Rattle.system.specs.Layout.{read_card};
ghost use Rattle.system.specs.Outcome.{checked_of};
ghost use Rattle.table.specs.Table.{room_check};
ghost use Rattle.table.specs.Meaning.{NeedPromises};

use system::{Answer, Refusal, System};

// The columns of a system within the limits, of one kind of engine or two.
pub fn columns_of(y: System) -> usize
    requires { columns y ≤ column_limit }
    ensures { result ≡ columns y }
{
    let types = y.types;
    system_code::columns_within(types)
}

// Refusal 11: parts of `rows` and of `predecessors` entries, of which one is shorter than the columns.
pub fn table_check(y: System, rows: usize, predecessors: usize) -> Result<(), Refusal>
    requires { columns y ≤ column_limit }
    ensures { checked_of result ≡ room_check y rows predecessors }
{
    let columns = columns_of(y);
    if (columns <= rows) & (columns <= predecessors) {
        return Ok(());
    }
    Err(Refusal::Input(11))
}

// The entries that each part of the table of a system file must have, one for each column: refused 1 to 10, 31, 41 and 43 as the file is read.
pub fn columns_needed(file: &[u8]) -> Answer
    ensures { NeedPromises (read_card file.now) result }
{
    let opened = system_code::read_card(file);
    opened.answer?;
    Ok(Some(columns_of(opened.system)))
}
