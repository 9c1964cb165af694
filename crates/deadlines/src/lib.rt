// What a run of an engine of a system file answers (request 2026-14), with the definitions and theorems on it: no code. The functions stand in crate
// `deadlines_code`.
#![tactic(auto)]

use runs::Report;
use system::Refusal;
