// No code: document 01's cases W1 to W12 stand in specs/ as a table, and one theorem in proofs/ shows them of the definitions; its edges, and examples of our
// own, likewise.
// Beside them stand what statements suppose, given of every input (Supposed), theorems said again as closed statements (Every), and worked files through the
// theorems of every file (Worked).
#![tactic(auto)]
