// No code: the line that the program behind `./tight` writes for a system file, and what it tells. The functions stand in crate `tightness_code`.
#![tactic(auto)]
