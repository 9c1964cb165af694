// The lent table, in two parts (request 2026-10): filling it, and placing a load by it.
#![tactic(auto)]

ghost use Rattle.std.specs.Prelude.{◌≡◌};
ghost use Rattle.system.specs.Layout.{read_card};
ghost use Rattle.system.specs.Card.{card_of};
ghost use Rattle.partition.specs.Lent.{lent};
ghost use Rattle.table.specs.Table.{filled, placement};
ghost use Rattle.table.specs.Chain.{listed, MayPlace};
ghost use Rattle.table.specs.Meaning.{FillCall};

use system::{Answer, Kind, Refusal, System, TYPE_LIMIT};
use table::{Engines, Placement};

mod chain;
mod fill;
mod onto;
mod scan;
mod size;
mod under;

pub use chain::placed_by;
pub use fill::{ceilings_of, fill_parts};
pub use onto::engines_to;
pub use size::{columns_needed, columns_of, table_check};

// Fills both parts, with a row for each of the engines, and places a load within the ceilings on them by the parts.
pub fn place(
    rows: &mut [u16],
    predecessors: &mut [u16],
    y: System,
    engines: Engines,
    counts: [u16; TYPE_LIMIT],
) -> Option<Placement>
    requires { MayPlace y engines counts (lent rows.old predecessors.old) }
    ensures { (lent rows.new predecessors.new ≡ filled y (listed engines) (lent rows.old predecessors.old))
        × (result ≡ placement y (listed engines) counts) }
{
    fill::fill_parts(rows, predecessors, y, engines.count);
    let found = chain::placed_by(&rows[..], &predecessors[..], y, engines.count, counts)?;
    let loads = found.loads;
    Some(Placement {
        used: found.used,
        loads: onto::on_engines(engines, loads, found.used),
    })
}

// Fills both parts for a system file, and answers the number of pairs tried (request 2026-05): refused 1 to 10, 31, 41 and 43 as the file is read, 11 where
// a part is too short. Of two kinds of engine no pairs are reported (2026-13); the parts are then filled for the first.
pub fn fill_table(file: &[u8], rows: &mut [u16], predecessors: &mut [u16]) -> Answer
    ensures { FillCall (card_of (read_card file.now)) (lent rows.old predecessors.old)
        result (lent rows.new predecessors.new) }
{
    let opened = system_code::read_card(file);
    opened.answer?;
    let y = opened.system;
    size::table_check(y, rows.len(), predecessors.len())?;
    let second = y.second;
    let None = second else {
        fill::fill_parts(rows, predecessors, system_code::first_kind(y), y.engines);
        return Ok(None);
    };
    Ok(Some(fill::fill_parts(rows, predecessors, y, y.engines)))
}
