// Round trips: a system that is written, read and written again, and a file that is read and written.
use crate::{judge, lent, zeros};
use system::{System, TYPE_LIMIT};
use system_code::read_card;
use trial::lent::front;
use trial::{files, systems};

// The platform, any second kind, and the first k types alone: 0, no q, no C and T and no costs there past them.
fn known_part(y: System) -> System {
    let mut part = systems::no_system();
    for (known, task) in part.types.iter_mut().zip(judge::types_of(&y)) {
        *known = *task;
    }
    System {
        types: part.types,
        ..y
    }
}

// The first file is read as y with 0 past k, and what was read is written as the second one, into a buffer that has just enough.
fn comes_back(y: System, from: &[u8], to: &[u8]) -> bool {
    let read = read_card(from);
    let again = lent::called(read.system, to.len(), 90);
    (read.answer == Ok(None))
        & (read.system == known_part(y))
        & (again.answer == Ok(Some(to.len())))
        & (front(&again.bytes, to.len()) == to)
}

// The file of y with a tag 3 that gives 0 after a type without a d comes back without it, and so does the one with it after each of them.
fn drops_zeros(y: System) -> bool {
    let f = files::file_of(y);
    (0..TYPE_LIMIT).all(|t| comes_back(y, zeros::with_zero(f, y, t).as_slice(), f.as_slice()))
        & comes_back(y, zeros::with_zeros(y).as_slice(), f.as_slice())
}

// Both ways round, of a system that is written: from the bytes that the writer left, and from the file made apart from it. Both come back as
// they are.
fn both_ways(y: System, bytes: &[u8]) -> bool {
    let f = files::file_of(y);
    let left = front(bytes, f.size);
    comes_back(y, left, left) & comes_back(y, f.as_slice(), f.as_slice())
}

// One call: its answer, its buffer, and the round trips where it is written.
pub fn right(y: System, room: usize) -> bool {
    let c = lent::called(y, room, 5);
    if !lent::right_call(c, y, room, 5) {
        return false;
    }
    judge::refusal_of(&y, room).is_some() || (both_ways(y, &c.bytes) & drops_zeros(y))
}
