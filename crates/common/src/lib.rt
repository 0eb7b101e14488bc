// What rounds and ledger share and what says nothing about either, as definitions and laws in specs/ and proofs/: numbers of benches, worlds,
// a function changed at one place, a step's checks. There is no code here.

#![tactic(auto)]
