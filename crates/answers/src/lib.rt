// No code: what the programs behind `./sheet` and `./check` write for a file and a sheet, and what it tells. The functions stand in crate `answers_code`.
#![tactic(auto)]
