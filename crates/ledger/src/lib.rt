// No code: the ledger of calls and demand 3 stand in specs/ and proofs/.
#![tactic(auto)]
