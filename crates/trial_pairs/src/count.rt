// The pairs that a fill tries, counted one by one, as requests 2026-05 and 2026-10 say them: for each row from 1 and each column without a row yet, the
// columns with no greater count, from the lowest up to the one accepted or to the last. Rows and predecessors are document 01's, from its definition alone.
ghost use Rattle.std.specs.Prelude.{◌≤◌};

use brute::{recovery, search};
use system::{NO_COLUMN, System, TYPE_LIMIT};
use trial::lent::{front, front_mut};
use trial::systems::product;

// The columns of a system, at most.
const WIDEST: usize = 4096;

// A column: the counts of its load, and what both parts hold there.
#[derive(Clone, Copy)]
pub struct Column {
    load: [u16; TYPE_LIMIT],
    pub row: u16,
    pub predecessor: u16,
}

// The columns of a system, which are the first of all that there may be, and the pairs tried to fill them. An array and a number, seen through `columns`: a
// Vec would bring an error of memory to every step.
#[derive(Clone, Copy)]
pub struct Count {
    all: [Column; WIDEST],
    number: usize,
    pub tried: usize,
}

impl Count {
    pub fn columns(&self) -> &[Column] {
        front(&self.all, self.number)
    }
}

// The column that a cell holds, where one is accepted, and the columns tried for it.
#[derive(Clone, Copy)]
struct Cell {
    holds: Option<usize>,
    tried: usize,
}

// The loads within the ceilings, counted through, the count of type 1 moving fastest; no row places any of them yet.
fn loads_of(y: System) -> Count
    ensures { result.number ≤ 4096 }
{
    let bases = recovery::bases_of(search::digits_of(recovery::ceilings_of(y)));
    let mut all = [Column {
        load: [0; TYPE_LIMIT],
        row: row_after(y.engines),
        predecessor: NO_COLUMN,
    }; WIDEST];
    let mut digits: [usize; 8] = [0; 8];
    // By index: the same over `all.iter_mut()` was tried, and its proof did not close.
    for c in 0..WIDEST {
        all[c].load = recovery::counts_of(digits);
        let Some(next) = search::counted_up(digits, bases) else {
            return Count {
                all,
                number: c + 1,
                tried: 0,
            };
        };
        digits = next;
    }
    Count {
        all,
        number: WIDEST,
        tried: 0,
    }
}

// Column p has no count above that of column c.
fn no_greater(p: &Column, c: &Column) -> bool {
    p.load.iter().zip(&c.load).all(|(less, more)| less <= more)
}

// How many times the code of a type is in memory: under rule 1 once for all instances.
fn codes(rule: u8, count: u16) -> u32 {
    if (rule == 1) & (1 < count) {
        1
    } else {
        count as u32
    }
}

// What column c has more than column p fits an engine.
fn difference_fits(y: &System, p: &Column, c: &Column) -> bool {
    let mut time: u64 = 0;
    let mut memory: u64 = 0;
    for (task, (less, more)) in y.types.iter().zip(p.load.iter().zip(&c.load)) {
        let count = more.wrapping_sub(*less);
        time = time.wrapping_add(product(u32::from(count), task.time));
        memory = memory.wrapping_add(product(u32::from(count), task.data));
        memory = memory.wrapping_add(product(codes(y.rule, count), task.memory));
        if task.most.is_some_and(|q| q < count) {
            return false;
        }
    }
    (time <= y.timecap as u64) & (memory <= y.memorycap as u64)
}

// The cell of column c in a row: the lowest column with no greater count that has an earlier row, and that differs by what fits. A later column than
// c has a greater count.
fn cell_at(y: &System, columns: &[Column], c: &Column, row: u16) -> Cell {
    let mut tried: usize = 0;
    for (i, p) in columns.iter().enumerate() {
        if no_greater(p, c) {
            tried = tried.wrapping_add(1);
            if (p.row < row) && difference_fits(y, p, c) {
                return Cell {
                    holds: Some(i),
                    tried,
                };
            }
        }
    }
    Cell { holds: None, tried }
}

// One row more is filled: each column without an earlier row is tried, and has this row where a column is accepted. Answers the pairs tried.
fn fill_row(y: &System, columns: &mut [Column], row: u16) -> usize {
    let mut tried: usize = 0;
    for i in 0..columns.len() {
        let c = columns[i];
        if row <= c.row {
            let cell = cell_at(y, &columns[..i + 1], &c, row);
            tried = tried.wrapping_add(cell.tried);
            if let Some(p) = cell.holds {
                columns[i].row = row;
                columns[i].predecessor = (p % 65536) as u16;
            }
        }
    }
    tried
}

// The row after i others, as an entry holds it; the one after row m stands for none.
fn row_after(i: usize) -> u16 {
    (i % 65535) as u16 + 1
}

// Both parts for rows 1 to m, and the pairs. Row 0 says yes at column 0 alone, and nothing is tried for it.
pub fn count_of(y: System) -> Count {
    let mut count = loads_of(y);
    let number = count.number;
    count.all[0].row = 0;
    for i in 0..y.engines {
        let tried = fill_row(&y, front_mut(&mut count.all, number), row_after(i));
        count.tried = count.tried.wrapping_add(tried);
    }
    count
}

// The number below 2 to the 32nd.
fn narrow(n: u64) -> u32 {
    (n % 4294967296) as u32
}

// (n + 1) × (n + 2) / 2.
fn triangle(n: u16) -> u32 {
    narrow(product(u32::from(n) + 1, u32::from(n) + 2) / 2)
}

// m times the product of (n + 1) × (n + 2) / 2.
pub fn bound_of(y: System) -> u32 {
    y.types
        .iter()
        .fold(narrow(y.engines as u64), |bound, task| {
            narrow(product(bound, triangle(task.ceiling)))
        })
}
