// The published rounds, as definitions and theorems in specs/ and proofs/. There is no code here.

#![tactic(auto)]
