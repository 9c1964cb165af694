// No code: what the writer of system files (crate `writer_code`) is to write, by requests 2026-01, 2026-03, 2026-04, 2026-13 and 2026-14, and what that means.
#![tactic(auto)]
