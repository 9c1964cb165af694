// Request 2026-06: the sheets that partners send. A plan is written as a sheet, and any sheet is checked against its system file.
// A sheet is a header with the used engines and k, then a record for each used engine, their numbers rising. Crate `sheets` defines it.
#![tactic(auto)]

mod checking;
mod rules;
mod writing;

pub use checking::check_sheet;
pub use writing::write_sheet;
