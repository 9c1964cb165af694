// The two calls over tables and buffers that are dirty, and of which first entries of each part and first bytes are lent; and what was left in them.
use sheets_code::{check_sheet, write_sheet};
use std::array;
use system::{Answer, COLUMN_LIMIT, Refusal};
use trial::lent;
use trial::lent::{Lengths, Parts, front_mut};
use trial::words::CASE_BYTES;
use trial_records::{front_number, mixed_parts};

// What a check answered, and the number that stands for the whole table after it, where that is not as it was lent.
#[derive(Clone, Copy)]
pub struct CheckCall {
    pub answer: Result<bool, Refusal>,
    pub changed: Option<usize>,
}

// What a writer answered, the whole buffer after it, and the number of the table.
#[derive(Clone, Copy)]
pub struct WriteCall {
    pub answer: Answer,
    pub buffer: [u8; CASE_BYTES],
    pub changed: Option<usize>,
}

fn dirty_buffer() -> [u8; CASE_BYTES] {
    array::from_fn(|i| (i % 251 + 3) as u8)
}

// The number of a table, where it is not as it was lent: every entry of both parts has a part in it.
fn changed(table: &Parts<COLUMN_LIMIT>) -> Option<usize> {
    if *table == mixed_parts::<COLUMN_LIMIT>() {
        None
    } else {
        Some(front_number(table))
    }
}

// The bytes of a buffer from a place on are as they were before the call.
pub fn kept_from(buffer: &[u8; CASE_BYTES], start: usize) -> bool {
    lent::kept_from(buffer, &dirty_buffer(), start)
}

// A sheet checked against a file, with so many entries of each part lent.
pub fn checked(file: &[u8], sheet: &[u8], n: Lengths) -> CheckCall {
    let mut table = mixed_parts::<COLUMN_LIMIT>();
    let answer = table.lent(n, |rows, predecessors| {
        check_sheet(file, sheet, rows, predecessors)
    });
    CheckCall {
        answer,
        changed: changed(&table),
    }
}

// The sheet of a file's plan written, with so many entries of each part and bytes lent.
pub fn written(file: &[u8], n: Lengths, room: usize) -> WriteCall {
    let mut table = mixed_parts::<COLUMN_LIMIT>();
    let mut buffer = dirty_buffer();
    let out = front_mut(&mut buffer, room);
    let answer = table.lent(n, |rows, predecessors| {
        write_sheet(file, rows, predecessors, out)
    });
    WriteCall {
        answer,
        buffer,
        changed: changed(&table),
    }
}
