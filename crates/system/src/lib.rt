// The types and limits of a placement problem: the system, what a call answers, and what the reader of system files goes by. What the functions on
// them do and mean is defined and proved in this crate, they stand in crate `system_code`.
// These types stand here, and not in a module, so that other crates name them in definitions by the crate alone.
#![tactic(auto)]

// The largest m.
pub const ENGINE_LIMIT: usize = 16;

// The largest k.
pub const TYPE_LIMIT: usize = 6;

// The largest product of all n + 1.
pub const COLUMN_LIMIT: usize = 4096;

// What a cell holds that says no, and the lent table where a column has no predecessor.
pub const NO_COLUMN: u16 = 65535;

// The largest C and T, and the most ticks of a run (45).
pub const TICK_LIMIT: u32 = 65535;

// The bytes of a file, or of a text of numbers, that the programs read.
pub const FILE_BYTES: usize = 384;

// The run time and the period of an instance, in ticks: request 2026-14's C and T, of 32 bits, so that 0 and 65,536 can be said wrong.
#[derive(Clone, Copy, PartialEq, Eq)]
pub struct Cycle {
    pub run: u32,
    pub period: u32,
}

// What an instance takes on an engine of the second kind: request 2026-13's u and s there.
#[derive(Clone, Copy, PartialEq, Eq)]
pub struct Costs {
    pub time: u32,
    pub memory: u32,
}

// A type of packet function: document 01's u, s and n, request 2026-03's d, the data memory of one instance, 2026-04's q, how many instances
// of it one engine may hold, 2026-14's C and T, and 2026-13's u and s on the second kind. None is not given: no limit and not a q of 0, no C
// and T of 0, no u and s of 0.
#[derive(Clone, Copy, PartialEq, Eq)]
pub struct TaskType {
    pub time: u32,
    pub memory: u32,
    pub ceiling: u16,
    pub data: u32,
    pub most: Option<u16>,
    pub pace: Option<Cycle>,
    pub there: Option<Costs>,
}

// The engines of a second kind: their number, U and S. They are numbered after those of the first.
#[derive(Clone, Copy, PartialEq, Eq)]
pub struct Kind {
    pub number: usize,
    pub timecap: u32,
    pub memorycap: u32,
}

// Document 01's m, rule, U, S and k, with the types in order of their number, all 0 and nothing given past k; and any second kind of engine
// (request 2026-13): a card without it has one kind, and not a second of 0 engines. `rule` is a number: a caller may give any, and each but 0 and 1 is
// refused 6 (`platform_fault`).
#[derive(Clone, Copy, PartialEq, Eq)]
pub struct System {
    pub engines: usize,
    pub rule: u8,
    pub timecap: u32,
    pub memorycap: u32,
    pub typecount: usize,
    pub types: [TaskType; TYPE_LIMIT],
    pub second: Option<Kind>,
}

// Which of document 01's two lists a refusal is from, and its number there. The number stays one: the documents give it, and every theorem on a refusal says
// it (`outcome_of`).
#[derive(Clone, Copy, PartialEq, Eq)]
pub enum Refusal {
    Input(u8),
    State(u8),
}

// What a call answers: accepted, with a number where it has one to say, or refused.
pub type Answer = Result<Option<usize>, Refusal>;

// One row of the table of fields: a tag, the length of its body, how many of it a file may have. Only of types is that
// number asked (7): of the others the places allow just as many (`HowMany` of specs/Fields).
#[derive(Clone, Copy, PartialEq, Eq)]
pub struct FieldRule {
    pub tag: u8,
    pub body: usize,
    pub allowed: usize,
}

// A field of this tag may come after one of tag `last`, 0 at the file's start.
#[derive(Clone, Copy, PartialEq, Eq)]
pub struct Follow {
    pub tag: u8,
    pub last: u8,
}

// A place in a file, counted from 0.
#[derive(Clone, Copy, PartialEq, Eq)]
pub struct Cursor {
    pub at: usize,
}

// What stands at a cursor: a field's tag and length (0 past the file's end), whether both stand there, and whether
// the whole field does. Its body is the file's part from `start` to `next`, an empty one where it is not whole. The flags stay: theorem `FieldStep` says
// them, and what stands beside each.
#[derive(Clone, Copy, PartialEq, Eq)]
pub struct Field {
    pub tag: u8,
    pub size: usize,
    pub headed: bool,
    pub whole: bool,
    pub start: usize,
    pub next: Cursor,
}

// What reading a system file answers, with the system: the blank one where the file is refused, as theorem `ReadsPlainly` (crate clients) says. So it is no
// Result.
#[derive(Clone, Copy, PartialEq, Eq)]
pub struct Opened {
    pub answer: Answer,
    pub system: System,
}
