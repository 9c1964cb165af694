// Reading the two filled parts: the row of a load, and its recovery along the predecessors.
ghost use Rattle.std.specs.Prelude.{◌≡◌, true};
ghost use Rattle.system.specs.Values.{ceilings_of};
ghost use Rattle.loads.specs.Load.{fits_engine, engine_with, within};
ghost use Rattle.table.specs.Chain.{PartsShow, ChainAt, row_load, recovered_onto, rows_placed};

use loads::EngineLoad;
use system::{ENGINE_LIMIT, System, TYPE_LIMIT};
use table::Placement;

// What a row gets, where the cell of the row at a column holds the column `before`.
fn row_load(y: System, column: usize, before: usize) -> EngineLoad
    requires { fits_engine y (row_load y column before) ≡ true }
    ensures { result ≡ engine_with y (row_load y column before) }
{
    let load = loads_code::load_of(y, column);
    let rest = loads_code::load_of(y, before);
    loads_code::engine_with(y, loads_code::minus(load, rest))
}

// The recovery of a column's load from its lowest yes row: the row gets the load less that of the predecessor,
// whose lowest yes row is the one before. Row i is at index i - 1; rows past this one are as they were.
fn recover(
    predecessors: &[u16],
    y: System,
    row: usize,
    column: usize,
    loads: [EngineLoad; ENGINE_LIMIT],
) -> [EngineLoad; ENGINE_LIMIT]
    requires { ChainAt y row predecessors.now column }
    ensures { result ≡ recovered_onto y row column loads }
{
    if row == 0 {
        return loads;
    }
    let before = predecessors[column] as usize;
    let last = row - 1;
    let mut next = loads;
    next[last] = row_load(y, column, before);
    recover(predecessors, y, last, before, next)
}

// A load within the ceilings placed by two parts that show its rows: recovered from its lowest yes row, if there is one.
pub fn placed_by(
    rows: &[u16],
    predecessors: &[u16],
    y: System,
    engines: usize,
    counts: [u16; TYPE_LIMIT],
) -> Option<Placement>
    requires { PartsShow y engines rows.now predecessors.now × (within counts (ceilings_of y) ≡ true) }
    ensures { result ≡ rows_placed y engines counts }
{
    let column = loads_code::column_of(y, counts);
    let row = rows[column] as usize;
    if row > engines {
        return None;
    }
    let idle = [loads_code::idle_engine(); ENGINE_LIMIT];
    Some(Placement {
        used: row,
        loads: recover(predecessors, y, row, column, idle),
    })
}
