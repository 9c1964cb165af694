// The columns whose load has no count above a given one, lowest first: for fixed counts of types 2 to 6 they are one run of columns, and `step` goes from
// run to run.
// `step` and `jumps_of` go by the number of a type: `step` answers it, and `jumps_of` fills one array by two others, which a zip of three says no plainer.
ghost use Rattle.std.specs.Prelude.{◌≡◌, ◌+◌, ◌≤◌, ◌<◌, ◌++◌, true, length, take, drop};
ghost use Rattle.system.specs.Limits.{columns_of, column_limit};
ghost use Rattle.loads.specs.Load.{within};
ghost use Rattle.table.specs.Under.{next_under, rises_at, index_risen, jumps_from};

use system::TYPE_LIMIT;

// Makes the counts from index `from` on the next ones, in order of columns, that are not above the tops. Answers the index of the count that rises, if one
// does.
pub fn step(counts: &mut [u16; TYPE_LIMIT], tops: [u16; TYPE_LIMIT], from: usize) -> Option<usize>
    requires { (from ≤ 6) × (length counts.old ≡ 6) }
    ensures { (counts.new ≡ take from counts.old ++ next_under (drop from tops) (drop from counts.old))
        × (result ≡ index_risen (from + rises_at (drop from tops) (drop from counts.old))) }
{
    for t in from..TYPE_LIMIT {
        let count = counts[t];
        if count < tops[t] {
            counts[t] = count + 1;
            return Some(t);
        }
        counts[t] = 0;
    }
    None
}

// A count as a number of columns.
pub fn wide(count: u16) -> usize
    ensures { (result ≡ count) × (result < 65536) }
{
    count as usize
}

// For each type, how many columns the first load in which its count rises lies past the load whose counts before it are all at their tops.
pub fn jumps_of(ceilings: [u16; TYPE_LIMIT], tops: [u16; TYPE_LIMIT]) -> [usize; TYPE_LIMIT]
    requires { (within tops ceilings ≡ true) × (columns_of ceilings ≤ column_limit) }
    ensures { result ≡ jumps_from 1 0 ceilings tops }
{
    let mut jumps: [usize; TYPE_LIMIT] = [0; TYPE_LIMIT];
    let mut stride: usize = 1;
    let mut passed: usize = 0;
    for t in 0..TYPE_LIMIT {
        jumps[t] = stride - passed;
        passed += wide(tops[t]) * stride;
        stride = stride * (wide(ceilings[t]) + 1);
    }
    jumps
}

// How many columns have a load with no count above this one.
pub fn columns_under(load: [u16; TYPE_LIMIT]) -> usize
    requires { columns_of load ≤ column_limit }
    ensures { result ≡ columns_of load }
{
    let mut columns: usize = 1;
    for count in load {
        columns *= wide(count) + 1;
    }
    columns
}
