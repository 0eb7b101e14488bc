// How the lines of run texts and of ledger scripts are spelled, and how they are read back, as definitions and theorems in specs/ and proofs/;
// and the types by which functions speak of them. There are no functions here.

#![tactic(auto)]

use kinds::{BenchNo, SlotNo, Step};

// What is found at a place of a text, and the place behind it; None where it does not stand there.
pub type Found<T> = Option<(T, usize)>;

// ---- run text

// A line, as the reader gives it and the writer takes it: a step.
pub type Line = Step;

// The steps that a line can name.
#[derive(Clone, Copy)]
pub enum Verb {
    Start,
    Abstain,
    Leave,
    Fail,
    Turn,
    Arrive,
    Notice,
}

// ---- ledger scripts

// A ledger step as a script spells it. A sweep has a tag; a hand-out has the places of the receiving buffer.
#[derive(Clone, Copy)]
pub enum LedgerStep {
    Join(BenchNo, SlotNo),
    Sweep(BenchNo, u32),
    Close(BenchNo),
    End(BenchNo, SlotNo),
    HandOut(u32),
}

// The steps that a line of a script can name.
#[derive(Clone, Copy)]
pub enum LedgerVerb {
    Join,
    Sweep,
    Close,
    End,
    HandOut,
}
