// The number of good assignments, engine after engine, in the lent part: its first half has for each column the number for the engines so far, its second
// half which loads fit.
ghost use Rattle.std.specs.Prelude.{◌≡◌, suc, ◌+◌, ◌*◌, ◌<◌, true, length};
ghost use Rattle.system.specs.Limits.{keeps_limits};
ghost use Rattle.counting.specs.Counts.{good_count};
ghost use Rattle.counting.specs.Walk.{over_one, over_two, over_by, reach_by, held_ways, SumIn, CountsIn, StridesOf, PassIn, Passed, RowOf, Beyond, CountIn};

// The loops over j and over columns go over numbers, which the places in the part are reckoned from; no list holds them. The sums over types 1 and 2 take
// plain numbers and no Walk: they are inmost, and a Walk would be copied at each of their calls.
use crate::chosen::{SIDE, chosen};
use system::{System, TYPE_LIMIT};

// What a pass goes by: the counts of the column that it is at, and the strides of the types. They stay two arrays: the strides are the same for all columns.
#[derive(Clone, Copy)]
pub struct Walk {
    pub columns: usize,
    pub column: usize,
    pub counts: [u16; TYPE_LIMIT],
    pub strides: [usize; TYPE_LIMIT],
}

// A count as a number of columns.
fn wide(count: u16) -> usize
    ensures { (result ≡ count) × (result < 65536) }
{
    count as usize
}

// The strides of the types. That a system keeps the limits stands in the contracts of three functions that are handed one: a caller may make any System, so
// that no invariant of it can say it.
fn strides_of(y: System) -> [usize; TYPE_LIMIT]
    requires { keeps_limits y ≡ true }
    ensures { StridesOf y result }
{
    let mut strides = [0usize; TYPE_LIMIT];
    let mut stride: usize = 1;
    for (t, task) in y.types.iter().enumerate() {
        strides[t] = stride;
        stride *= wide(task.ceiling) + 1;
    }
    strides
}

// With one engine: 1 where the load fits, in both halves.
fn first_row(part: &mut [u64], y: System, columns: usize)
    requires { CountIn y columns part.old }
    ensures { RowOf y 1 part.new × Beyond y part.old part.new }
{
    for column in 0..columns {
        let load = loads_code::load_of(y, column);
        let bit = u64::from(loads_code::fits_engine(y, load));
        part[column] = bit;
        part[columns + column] = bit;
    }
}

// The sum over the counts of type 1 that the new engine may hold, those of the other types being chosen and making up column `from`.
fn over_first(
    part: &[u64],
    ways: &[u64],
    columns: usize,
    column: usize,
    count: usize,
    from: usize,
) -> u64
    requires { SumIn part.now ways.now columns column (from + count) (over_one part.now columns column count from) × (count < 64) }
    ensures { result ≡ over_one part.now columns column count from }
{
    let mut sum: u64 = 0;
    for j in 0..count + 1 {
        let held = from + j;
        sum += ways[SIDE * count + j] * (part[columns + held] * part[column - held]);
    }
    sum
}

// The same over the counts of type 2 as well, whose stride is `stride`.
fn over_second(
    part: &[u64],
    ways: &[u64],
    columns: usize,
    column: usize,
    first: usize,
    second: usize,
    stride: usize,
    from: usize,
) -> u64
    requires { SumIn part.now ways.now columns column (from + (first + second * stride)) (over_two part.now columns column first second stride from)
        × (first < 64) × (second < 64) }
    ensures { result ≡ over_two part.now columns column first second stride from }
{
    let mut sum: u64 = 0;
    for j in 0..second + 1 {
        let inner = over_first(part, ways, columns, column, first, from + j * stride);
        sum += ways[SIDE * second + j] * inner;
    }
    sum
}

// The same over the counts of the types up to index `t`, at least 2.
fn over_types(part: &[u64], ways: &[u64], walk: Walk, t: usize, from: usize) -> u64
    requires { SumIn part.now ways.now walk.columns walk.column (from + reach_by walk.strides walk.counts (suc t))
        (over_by walk.strides walk.counts (suc t) from (held_ways part.now walk.columns walk.column))
        × CountsIn walk.counts walk.strides t }
    ensures { result ≡ over_by walk.strides walk.counts (suc t) from (held_ways part.now walk.columns walk.column) }
{
    let counts = walk.counts;
    let strides = walk.strides;
    let count = wide(counts[t]);
    let mut sum: u64 = 0;
    for j in 0..count + 1 {
        let held = from + j * strides[t];
        let inner = if t == 2 {
            over_second(
                part,
                ways,
                walk.columns,
                walk.column,
                wide(counts[0]),
                wide(counts[1]),
                strides[1],
                held,
            )
        } else {
            over_types(part, ways, walk, t - 1, held)
        };
        sum += ways[SIDE * count + j] * inner;
    }
    sum
}

// One engine more: the columns from the last down, so that the smaller ones still have the numbers for one engine less.
fn pass(part: &mut [u64], ways: &[u64], y: System, columns: usize)
    requires { PassIn y columns part.old ways.now }
    ensures { Passed y part.old part.new }
{
    let strides = strides_of(y);
    for column in (0..columns).rev() {
        let walk = Walk {
            columns,
            column,
            counts: loads_code::load_of(y, column),
            strides,
        };
        part[column] = over_types(&part[..], ways, walk, TYPE_LIMIT - 1, 0);
    }
}

// The number of good assignments of a system's instances to its engines. The first 2 × columns entries of the part are worked in.
pub fn count_good(part: &mut [u64], y: System, columns: usize) -> u64
    requires { CountIn y columns part.old }
    ensures { (result ≡ good_count y) × Beyond y part.old part.new }
{
    first_row(part, y, columns);
    if y.engines > 1 {
        let ways = chosen();
        for _e in 1..y.engines {
            pass(part, &ways[..], y, columns);
        }
    }
    part[columns - 1]
}
