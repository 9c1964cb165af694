// Filling the two lent parts, column after column. The row of a column is the largest row of it less one instance, or one more, so that two scans find it.
ghost use Rattle.std.specs.Prelude.{◌≡◌, ◌+◌, ◌*◌, ◌≤◌, ◌<◌, true, length};
ghost use Rattle.system.specs.Values.{ceilings_of};
ghost use Rattle.system.specs.Limits.{columns, column_limit, engine_limit, keeps_limits};
ghost use Rattle.partition.specs.Cell.{no_column};
ghost use Rattle.table.specs.Pairs.{counted_of};
ghost use Rattle.table.specs.Parts.{row_at, predecessor_at, part_of};
ghost use Rattle.table.specs.Scan.{most_below, entry_of, ScanIn, EntryWanted, ScansWanted};

use crate::scan::scan;
use crate::size::columns_of;
use crate::under::{columns_under, step, wide};
use system::{NO_COLUMN, System, TYPE_LIMIT};
use table::Entry;

// The ceilings of a system.
pub fn ceilings_of(y: System) -> [u16; TYPE_LIMIT]
    ensures { result ≡ ceilings_of y }
{
    y.types.map(|task| task.ceiling)
}

// What the row part says of a column without a row.
fn no_row(y: System) -> u16
    requires { keeps_limits y ≡ true }
    ensures { result ≡ y.engines + 1 }
{
    (y.engines as u16) + 1
}

// The entries of a column without a row: in each of the rows all columns under its load are counted.
fn none(y: System, engines: usize, under: usize) -> Entry
    requires { (keeps_limits y ≡ true) × (engines ≤ engine_limit) × (under ≤ column_limit) }
    ensures { result ≡ record { row = y.engines + 1; predecessor = no_column; counted = engines * under } }
{
    Entry {
        row: no_row(y),
        predecessor: NO_COLUMN,
        counted: engines * under,
    }
}

// The largest row of a column less one instance, over the types that its load has.
fn most_below(
    rows: &[u16],
    column: usize,
    ceilings: [u16; TYPE_LIMIT],
    load: [u16; TYPE_LIMIT],
) -> u16
    requires { ScanIn rows.now column ceilings load }
    ensures { result ≡ most_below rows.now column 1 ceilings load }
{
    let mut most: u16 = 0;
    let mut stride: usize = 1;
    for t in 0..TYPE_LIMIT {
        if load[t] != 0 {
            let row = rows[column - stride];
            if most < row {
                most = row;
            }
        }
        stride = stride * (wide(ceilings[t]) + 1);
    }
    most
}

// The entries of a column whose load does not fit, where less one instance it has the row `most` at most: that row, or the next one.
// With one engine less than `most` only the load itself could be taken from column 0, so that no scan is made for row 1.
fn by_scans(
    rows: &[u16],
    y: System,
    engines: usize,
    column: usize,
    ceilings: [u16; TYPE_LIMIT],
    load: [u16; TYPE_LIMIT],
    most: u16,
    under: usize,
) -> Entry
    requires { ScansWanted rows.now y engines column ceilings load most under }
    ensures { result ≡ entry_of y engines column }
{
    let row = most as usize;
    if row > 1 {
        let found = scan(rows, most - 1, column, ceilings, load);
        if let Some(predecessor) = found.column {
            return Entry {
                row: most,
                predecessor: predecessor,
                counted: (row - 1) * under + found.tried,
            };
        }
    }
    if row == engines {
        return none(y, engines, under);
    }
    let found = scan(rows, most, column, ceilings, load);
    Entry {
        row: most + 1,
        predecessor: found.column.unwrap_or(NO_COLUMN),
        counted: row * under + found.tried,
    }
}

// The entries of a column past column 0, whose load is `load`, by the rows of the columns before it.
fn entry_past(
    rows: &[u16],
    y: System,
    engines: usize,
    column: usize,
    ceilings: [u16; TYPE_LIMIT],
    load: [u16; TYPE_LIMIT],
) -> Entry
    requires { EntryWanted rows.now y engines column ceilings load × (0 < column) }
    ensures { result ≡ entry_of y engines column }
{
    let under = columns_under(load);
    let most = most_below(rows, column, ceilings, load);
    if most as usize > engines {
        return none(y, engines, under);
    }
    if (most <= 1) & (engines >= 1) {
        if loads_code::fits_engine(y, load) {
            return Entry {
                row: 1,
                predecessor: 0,
                counted: 1,
            };
        }
    }
    if most == 0 {
        return none(y, engines, under);
    }
    by_scans(rows, y, engines, column, ceilings, load, most, under)
}

// The entries of a column.
fn entry_at(
    rows: &[u16],
    y: System,
    engines: usize,
    column: usize,
    ceilings: [u16; TYPE_LIMIT],
    load: [u16; TYPE_LIMIT],
) -> Entry
    requires { EntryWanted rows.now y engines column ceilings load }
    ensures { result ≡ entry_of y engines column }
{
    if column == 0 {
        return Entry {
            row: 0,
            predecessor: NO_COLUMN,
            counted: 0,
        };
    }
    entry_past(rows, y, engines, column, ceilings, load)
}

// Fills both parts for rows 0 to `engines`, and answers the pairs counted. What they held before changes nothing.
pub fn fill_parts(rows: &mut [u16], predecessors: &mut [u16], y: System, engines: usize) -> usize
    requires { (keeps_limits y ≡ true) × (engines ≤ y.engines) × (columns y ≤ length rows.old) × (columns y ≤ length predecessors.old) }
    ensures { (rows.new ≡ part_of y (row_at y engines) rows.old)
        × (predecessors.new ≡ part_of y (predecessor_at y engines) predecessors.old)
        × (result ≡ counted_of y engines) }
{
    let columns = columns_of(y);
    let ceilings = ceilings_of(y);
    let none = no_row(y);
    let mut load: [u16; TYPE_LIMIT] = [0; TYPE_LIMIT];
    let mut counted: usize = 0;
    for column in 0..columns {
        rows[column] = none;
        let found = entry_at(&rows[..], y, engines, column, ceilings, load);
        rows[column] = found.row;
        predecessors[column] = found.predecessor;
        counted += found.counted;
        step(&mut load, ceilings, 0);
    }
    counted
}
