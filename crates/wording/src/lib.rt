// No code: the line that the program behind `./why` writes for a system file, and what it tells. The functions stand in crate `wording_code`.
#![tactic(auto)]
