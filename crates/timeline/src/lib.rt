// No code: the text that program `watch` writes for an engine of a plan (request 2026-14), and what it tells. The functions stand in crate `timeline_code`.
#![tactic(auto)]
