// What is reported of a run text and of a ledger script, as definitions and theorems in specs/ and proofs/. There are no functions here.

#![tactic(auto)]

// The bytes of the longest text that is played.
pub const LONGEST: usize = 65536;
