// Tables to lend, of two parts of 512 entries each: dirty ones, and whether two are the same from some entry on.
use crate::lent::kept_from;
use std::array;

#[derive(Clone, Copy)]
pub struct Lent {
    pub rows: [u16; 512],
    pub predecessors: [u16; 512],
}

// What stands at an entry of a table before it is lent.
fn dirt(i: usize) -> u16 {
    (((i % 65536) * 40503 + 7) % 65536) as u16
}

// No entry of one part is what the other part has there.
pub fn dirty_table() -> Lent {
    Lent {
        rows: array::from_fn(dirt),
        predecessors: array::from_fn(|i| dirt(i.wrapping_add(512))),
    }
}

// The entries of both parts from `start` on are the same.
pub fn same_from(a: Lent, b: Lent, start: usize) -> bool {
    kept_from(&a.rows, &b.rows, start) & kept_from(&a.predecessors, &b.predecessors, start)
}
