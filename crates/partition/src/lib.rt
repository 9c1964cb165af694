// No code: the theory of partitioning stands in specs/ and proofs/.
#![tactic(auto)]
