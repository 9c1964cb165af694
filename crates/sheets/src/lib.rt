// The types of placement sheets (request 2026-06), with the definitions and theorems on them: no code. The functions stand in crate `sheets_code`.
#![tactic(auto)]

use loads::EngineLoad;
use system::Refusal;

// The bytes of the longest sheet: the header, and a record of six types for each of 16 engines.
pub const SHEET_BYTES: usize = 389;

// One row of the table of a sheet's fields: a tag, the bytes of its body, and those more that it has for each type.
#[derive(Clone, Copy, PartialEq, Eq)]
pub struct SheetRule {
    pub tag: u8,
    pub body: usize,
    pub each: usize,
}

// What a sheet has for one engine: its load, idle where no record of it stands, and the place where the next record starts.
#[derive(Clone, Copy, PartialEq, Eq)]
pub struct Taken {
    pub load: EngineLoad,
    pub next: usize,
}
