// A bench by value: its counts and flags, and what it makes of a message, a notice and a turn.
// Its messages stand in its log, which the run keeps; `taken` says how far it has read each log.

#![tactic(auto)]

ghost use Rattle.std.specs.Prelude.{◌≡◌};
ghost use Rattle.bench.specs.Turns.{message_of};

mod changes;
mod turns;

use kinds::{Message, PLACES, Refusal, RoundNo, SlotNo};

// The states of a bench. A number above FAILED is read as failed.
// Words and no enum or bool, here and in `silent` and `chose`: a step promises what it does to every table of benches that can be handed in (`Stepped` of crate `rounds`).
pub const FRESH: u32 = 0;

pub const RUNNING: u32 = 1;

pub const DECIDED: u32 = 2;

pub const ABSTAINED: u32 = 3;

pub const LEFT: u32 = 4;

pub const FAILED: u32 = 5;

// state: one of the six above.
// Sets of benches hold bench i as bit i - 1: `world`, `outs` (whose OUT it has taken) and `noticed`.
// sent: the last round sent, or 0. silent: 1 once it has sent OUT. chose: 1 once it has decided on `value`.
// taken: how many round messages it has taken of each bench, its own included.
#[derive(Clone, Copy, Debug, Default, PartialEq, Eq, PartialOrd, Ord, Hash)]
pub struct Bench {
    pub state: u32,
    pub round: RoundNo,
    pub value: SlotNo,
    pub world: u32,
    pub outs: u32,
    pub noticed: u32,
    pub sent: u32,
    pub silent: u32,
    pub chose: u32,
    pub taken: [u32; PLACES],
}

// What a bench says in a round.
#[derive(Clone, Copy, Debug, Default, PartialEq, Eq, PartialOrd, Ord, Hash)]
pub struct Entry {
    pub value: SlotNo,
    pub world: u32,
}

// What stands where nothing was said.
pub const NO_ENTRY: Entry = Entry {
    value: SlotNo(0),
    world: 0,
};

// What a bench has heard of its round: from whom, and what each of them said. The set is a word and the entries no Options, so that whom of its
// world a bench has heard is one `&`.
#[derive(Clone, Copy)]
pub struct Heard {
    pub set: u32,
    pub entries: [Entry; PLACES],
}

// What a turn came to: a decision and OUT to send, or the next round's message to send.
#[derive(Clone, Copy)]
pub enum Turn {
    Decided(SlotNo, Message),
    Went(Message),
}

impl Turn {
    // What the bench has to send.
    pub fn message(self) -> Message
        ensures { result ≡ message_of self }
    {
        match self {
            Turn::Decided(_, m) | Turn::Went(m) => m,
        }
    }
}

// A turn hands the bench back also where it refuses, then as it was.
#[derive(Clone, Copy)]
pub struct Turned {
    pub bench: Bench,
    pub answer: Result<Turn, Refusal>,
}
