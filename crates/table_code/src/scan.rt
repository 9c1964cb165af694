// Scans of the columns under a load, lowest first, in the row part: for fixed counts of types 2 to 6 they are one run of columns, and `step` of module
// `under` goes from run to run.
ghost use Rattle.std.specs.Prelude.{◌≡◌, ◌-◌};
ghost use Rattle.system.specs.Limits.{columns_of};
ghost use Rattle.partition.specs.Cell.{lowest, no_column};
ghost use Rattle.table.specs.Under.{candidate, column_found, found_at, NoneInFirst};
ghost use Rattle.table.specs.Scan.{seen_by, RunIn, ScanIn, PartsFit};

use crate::under::{jumps_of, step, wide};
use system::TYPE_LIMIT;
use table::Found;

// The lowest column from `from` to below `end` whose row is at most `bound`, and whose difference from `column` fits: its row is at most 1.
// The differences are asked first, from the largest down: few of them fit, so that the loop mostly reads one entry.
fn run(rows: &[u16], bound: u16, column: usize, from: usize, end: usize) -> Option<u16>
    requires { RunIn rows.now column from end }
    ensures { result ≡ column_found (lowest (seen_by rows.now bound column) no_column (end - from) from) }
{
    for left in (column + 1 - end..column + 1 - from).rev() {
        if rows[left] <= 1 {
            let p = column - left;
            if rows[p] <= bound {
                return Some(p as u16);
            }
        }
    }
    None
}

// The scan past the first run, in which nothing was found. The smallest difference of a run, that of its last column, is a part of each of the others.
// Where it does not fit, none of them does, and the run is passed over.
fn scan_on(
    rows: &[u16],
    bound: u16,
    column: usize,
    ceilings: [u16; TYPE_LIMIT],
    load: [u16; TYPE_LIMIT],
) -> Found
    requires { ScanIn rows.now column ceilings load × PartsFit rows.now column ceilings × NoneInFirst (seen_by rows.now bound column) load }
    ensures { result ≡ found_at ceilings load (lowest (candidate (seen_by rows.now bound column) ceilings load) no_column (columns_of ceilings) 0) }
{
    let jumps = jumps_of(ceilings, load);
    let last = wide(load[0]);
    let mut counts: [u16; TYPE_LIMIT] = [0; TYPE_LIMIT];
    let mut base: usize = 0;
    let mut tried = last + 1;
    while let Some(t) = step(&mut counts, load, 1) {
        base += last + jumps[t];
        if rows[column - (base + last)] <= 1 {
            if let Some(found) = run(rows, bound, column, base, base + last + 1) {
                return Found {
                    column: Some(found),
                    tried: tried + (wide(found) + 1 - base),
                };
            }
        }
        tried += last + 1;
    }
    Found {
        column: None,
        tried: tried,
    }
}

// The lowest column under the load of `column` whose row is at most `bound` and whose difference from it fits, with its place among the columns under the
// load; none and the number of all these columns where there is none.
pub fn scan(
    rows: &[u16],
    bound: u16,
    column: usize,
    ceilings: [u16; TYPE_LIMIT],
    load: [u16; TYPE_LIMIT],
) -> Found
    requires { ScanIn rows.now column ceilings load × PartsFit rows.now column ceilings }
    ensures { result ≡ found_at ceilings load (lowest (candidate (seen_by rows.now bound column) ceilings load) no_column (columns_of ceilings) 0) }
{
    if let Some(found) = run(rows, bound, column, 0, wide(load[0]) + 1) {
        return Found {
            column: Some(found),
            tried: wide(found) + 1,
        };
    }
    scan_on(rows, bound, column, ceilings, load)
}
