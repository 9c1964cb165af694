// The bytes of a system file, made from a system; and a reader of system files, which goes from field to field.
ghost use Rattle.std.specs.Prelude.{◌≡◌, ◌<◌, length, take, IfOk};

use crate::buffers::BUFFER_BYTES;
use crate::lent::front;
use crate::systems;
use system::{Kind, System, TaskType};

// A file and its length.
#[derive(Clone, Copy)]
pub struct File {
    pub bytes: [u8; BUFFER_BYTES],
    pub size: usize,
}

impl File {
    pub fn as_slice(&self) -> &[u8]
        ensures { result.now ≡ take self.now.size self.now.bytes }
    {
        front(&self.bytes, self.size)
    }

    // Puts bytes at the end; none where there is no room for all, as no file of six types has.
    fn push(&mut self, more: &[u8]) {
        let end = self.size.saturating_add(more.len());
        if let Some(place) = self.bytes.get_mut(self.size..end) {
            place.copy_from_slice(more);
            self.size = end;
        }
    }

    // A field of two numbers of four bytes: C and T, or u and s on the second kind.
    fn push_pair(&mut self, tag: u8, first: u32, second: u32) {
        self.push(&[tag, 0, 8]);
        self.push(&first.to_be_bytes());
        self.push(&second.to_be_bytes());
    }

    fn push_platform(&mut self, y: System) {
        self.push(&[1, 0, 10, (y.engines % 256) as u8, y.rule]);
        self.push(&y.timecap.to_be_bytes());
        self.push(&y.memorycap.to_be_bytes());
    }

    // The field of a second kind of engine.
    fn push_kind(&mut self, k: Kind) {
        self.push(&[6, 0, 9, (k.number % 256) as u8]);
        self.push(&k.timecap.to_be_bytes());
        self.push(&k.memorycap.to_be_bytes());
    }

    // The fields of a type: its own, and of its d, q, C and T and costs on the second kind those that are given.
    fn push_type(&mut self, task: TaskType) {
        self.push(&[2, 0, 10]);
        self.push(&task.time.to_be_bytes());
        self.push(&task.memory.to_be_bytes());
        self.push(&task.ceiling.to_be_bytes());
        if task.data != 0 {
            self.push(&[3, 0, 4]);
            self.push(&task.data.to_be_bytes());
        }
        if let Some(q) = task.most {
            self.push(&[4, 0, 2]);
            self.push(&q.to_be_bytes());
        }
        if let Some(c) = task.pace {
            self.push_pair(5, c.run, c.period);
        }
        if let Some(c) = task.there {
            self.push_pair(7, c.time, c.memory);
        }
    }
}

// The file of a system of at most six types.
pub fn file_of(y: System) -> File {
    let mut file = File {
        bytes: [0; BUFFER_BYTES],
        size: 0,
    };
    file.push_platform(y);
    if let Some(k) = y.second {
        file.push_kind(k);
    }
    for task in front(&y.types, y.typecount) {
        file.push_type(*task);
    }
    file
}

// The number at a place of a field's body, 0 where the body ends before it.
fn byte_at(body: &[u8], at: usize) -> u8 {
    body.get(at).copied().unwrap_or(0)
}

fn two_at(body: &[u8], at: usize) -> u16 {
    body.get(at..)
        .and_then(|bytes| bytes.first_chunk())
        .map_or(0, |bytes| u16::from_be_bytes(*bytes))
}

fn four_at(body: &[u8], at: usize) -> u32 {
    body.get(at..)
        .and_then(|bytes| bytes.first_chunk())
        .map_or(0, |bytes| u32::from_be_bytes(*bytes))
}

// A field of this tag may follow one of tag `last`, none at the file's start: the platform is first and nothing else is, a d follows its type directly, a q
// its type or the d of it, C and T the type or its d or its q, a second kind of engine the platform, and the costs there come last after their type.
fn may_stand(tag: u8, last: Option<u8>) -> bool {
    let Some(before) = last else {
        return tag == 1;
    };
    match tag {
        1 => false,
        2 => true,
        3 => before == 2,
        4 => matches!(before, 2 | 3),
        5 => matches!(before, 2..=4),
        6 => before == 1,
        _ => matches!(before, 2..=5),
    }
}

// The bytes of a field's body.
fn body_of(tag: u8) -> usize {
    match tag {
        3 => 4,
        4 => 2,
        5 => 8,
        6 => 9,
        7 => 8,
        _ => 10,
    }
}

// A field: its tag and its body.
#[derive(Clone, Copy)]
struct Field<'a> {
    tag: u8,
    body: &'a [u8],
}

// The field that the bytes start with, and the bytes after it; or what its head is refused with: start cut 1, 2, 3, 4, body cut 1.
fn field_of<'a>(bytes: &'a [u8], last: Option<u8>) -> Result<(Field<'a>, &'a [u8]), usize>
    ensures { IfOk result (λ x. length x.1.now < length bytes.now) }
{
    let (head, after) = bytes.split_first_chunk::<3>().ok_or(1usize)?;
    let tag = head[0];
    let size = usize::from(u16::from_be_bytes([head[1], head[2]]));
    if !matches!(tag, 1..=7) {
        return Err(2);
    }
    if !may_stand(tag, last) {
        return Err(3);
    }
    if size != body_of(tag) {
        return Err(4);
    }
    let (body, rest) = after.split_at_checked(size).ok_or(1usize)?;
    Ok((Field { tag, body }, rest))
}

// U, S, u, s or d: 8 over its limit.
fn limited(size: u32) -> Result<(), usize> {
    if 1000000 < size {
        return Err(8);
    }
    Ok(())
}

// C and T break their bounds, or U is 0, or the share of u in U is less than that of C in T.
fn out_of_pace(timecap: u32, time: u32, run: u32, period: u32) -> bool {
    (run < 1)
        | (65535 < run)
        | (period < 1)
        | (65535 < period)
        | (period < run)
        | (timecap == 0)
        | (systems::product(time, period) < systems::product(run, timecap))
}

// The columns of the six ceilings are at most 4,096: dividing by each n + 1 in turn leaves something.
fn within_columns(y: System) -> bool {
    let mut left: usize = 4096;
    for task in &y.types {
        left /= usize::from(task.ceiling) + 1;
    }
    left != 0
}

// All types have costs on the second kind where there is one, and none has where there is not.
fn agreed(y: System) -> bool {
    let there = y.types.iter().filter(|task| task.there.is_some()).count();
    there == if y.second.is_some() { y.typecount } else { 0 }
}

// What a file reads as: the place after the last field that was read, and its tag; its system, up to what it is refused for, whether a tag 3 gave a d of 0, and
// the number that it is refused with. An accepted file has number 0, as the trials count their files by it.
#[derive(Clone, Copy)]
pub struct Reading {
    pub at: usize,
    pub last: Option<u8>,
    pub system: System,
    pub zero: bool,
    pub refusal: usize,
}

impl Reading {
    // The platform: 5, 6, 8.
    fn platform(&mut self, body: &[u8]) -> Result<(), usize> {
        let engines = byte_at(body, 0);
        let rule = byte_at(body, 1);
        let time = four_at(body, 2);
        let memory = four_at(body, 6);
        self.system = systems::platform_of(usize::from(engines), rule, time, memory);
        if !matches!(engines, 1..=16) {
            return Err(5);
        }
        if 1 < rule {
            return Err(6);
        }
        limited(time)?;
        limited(memory)
    }

    // A type: 7, 8.
    fn task(&mut self, body: &[u8]) -> Result<(), usize> {
        let time = four_at(body, 0);
        let memory = four_at(body, 4);
        if 6 <= self.system.typecount {
            return Err(7);
        }
        self.system = systems::with_type(self.system, time, memory, two_at(body, 8));
        limited(time)?;
        limited(memory)
    }

    // A d: 8.
    fn data(&mut self, body: &[u8]) -> Result<(), usize> {
        let data = four_at(body, 0);
        self.system = systems::with_data(self.system, data);
        self.zero = self.zero | (data == 0);
        limited(data)
    }

    // A q: 31.
    fn most(&mut self, body: &[u8]) -> Result<(), usize> {
        let q = two_at(body, 0);
        self.system = systems::with_most(self.system, q);
        if q == 0 {
            return Err(31);
        }
        Ok(())
    }

    // A C and T: 43, by u of the last type and U, both of the first kind.
    fn pace(&mut self, body: &[u8]) -> Result<(), usize> {
        let y = self.system;
        let run = four_at(body, 0);
        let period = four_at(body, 4);
        self.system = systems::with_pace(y, run, period);
        if out_of_pace(y.timecap, systems::last_time(y), run, period) {
            return Err(43);
        }
        Ok(())
    }

    // A second kind of engine: 5, 8.
    fn kind(&mut self, body: &[u8]) -> Result<(), usize> {
        let number = usize::from(byte_at(body, 0));
        let time = four_at(body, 1);
        let memory = four_at(body, 5);
        self.system = systems::with_second(self.system, number, time, memory);
        if (number < 1) | (16 < self.system.engines.wrapping_add(number)) {
            return Err(5);
        }
        limited(time)?;
        limited(memory)
    }

    // The u and s of a type on the second kind: 8.
    fn costs(&mut self, body: &[u8]) -> Result<(), usize> {
        let time = four_at(body, 0);
        let memory = four_at(body, 4);
        self.system = systems::with_there(self.system, time, memory);
        limited(time)?;
        limited(memory)
    }

    fn field(&mut self, field: Field) -> Result<(), usize> {
        match field.tag {
            1 => self.platform(field.body),
            2 => self.task(field.body),
            3 => self.data(field.body),
            4 => self.most(field.body),
            5 => self.pace(field.body),
            6 => self.kind(field.body),
            _ => self.costs(field.body),
        }
    }

    // At the end of the file: 9, 41, 10.
    fn end(&self) -> Result<(), usize> {
        if self.system.typecount == 0 {
            return Err(9);
        }
        if !agreed(self.system) {
            return Err(41);
        }
        if !within_columns(self.system) {
            return Err(10);
        }
        Ok(())
    }

    fn file(&mut self, file: &[u8]) -> Result<(), usize> {
        let mut rest = file;
        while !rest.is_empty() {
            let (field, after) = field_of(rest, self.last)?;
            self.at = file.len().wrapping_sub(after.len());
            self.last = Some(field.tag);
            rest = after;
            self.field(field)?;
        }
        self.end()
    }
}

// What a file reads as, of one kind of engine or two.
pub fn reading_of(file: &[u8]) -> Reading {
    let mut r = Reading {
        at: 0,
        last: None,
        system: systems::no_system(),
        zero: false,
        refusal: 0,
    };
    if let Err(number) = r.file(file) {
        r.refusal = number;
    }
    r
}
