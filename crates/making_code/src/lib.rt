// Request 2026-12: repeatable trial systems. From a seed and six numbers a system file is made that everyone can make again.
#![tactic(auto)]

mod calls;
mod drawn;
mod generator;
mod limits;

pub use calls::make_file;
