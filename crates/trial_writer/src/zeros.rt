// Files with a tag 3 that gives a d of 0: the reader takes it as none, so that the file is not that of its system.
use crate::judge;
use system::{System, TYPE_LIMIT};
use trial::buffers::BUFFER_BYTES;
use trial::changes::{NOT_GIVEN, with_number};
use trial::files::File;
use trial::{files, systems};

// Such a field.
const FIELD: [u8; 7] = [3, 0, 4, 0, 0, 0, 0];

// The last place where it has room.
const LAST: usize = BUFFER_BYTES - 7;

// The file with such a field put in at a place.
fn with_field(f: File, place: usize) -> File {
    let at = place.min(LAST);
    let mut bytes = f.bytes;
    bytes[at..at + 7].copy_from_slice(&FIELD);
    bytes[at + 7..].copy_from_slice(&f.bytes[at..LAST]);
    File {
        bytes,
        size: f.size.wrapping_add(7),
    }
}

// The place in the file of a system where the field of its type at index t ends, before those of its q, its C and T and its costs there: how long the file of
// the types up to that one is without them.
fn end_of(y: System, t: usize) -> usize {
    let first = with_number(y, b'k', 0, t.wrapping_add(1));
    let alone = systems::with_pace_at(with_number(first, b'q', t, NOT_GIVEN), t, None);
    let f = files::file_of(systems::with_there_at(alone, t, None));
    f.size
}

// The file of a system, or one that differs from it past its type at index t alone, with such a field after that type; as it is where the
// system has no type there, or one that has a d.
pub fn with_zero(f: File, y: System, t: usize) -> File {
    if judge::types_of(&y)
        .get(t)
        .is_some_and(|task| task.data == 0)
    {
        with_field(f, end_of(y, t))
    } else {
        f
    }
}

// The file of a system with such a field after each type that has no d.
pub fn with_zeros(y: System) -> File {
    (0..TYPE_LIMIT)
        .rev()
        .fold(files::file_of(y), |f, t| with_zero(f, y, t))
}
