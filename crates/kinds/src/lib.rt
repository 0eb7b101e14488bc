// The kinds of number that the rounds and the ledger speak of, the messages of a bench, a step as a caller hands it in, and how large a run is.
// specs/Stand.antt says which message and which step of `published` each stands for, specs/Sizes.antt the numbers of each size, and
// specs/Refusals.antt the number of each refusal. A number is checked where it is used, so each kind holds any u32.

#![tactic(auto)]

ghost use Rattle.std.specs.Prelude.{◌≡◌};
ghost use Rattle.kinds.specs.Refusals.{number_of, answer_of};

// How many benches a run has, or how many senders a ledger. Whoever needs a limit takes a size, so that no limit can be wrong.
#[derive(Clone, Copy)]
pub enum Size {
    Sixteen,
}

// What tables have room for, whatever the size: a place for each bench or sender, and the rounds of a log, more than any run has (`rounds_fit`).
pub const PLACES: usize = 16;

pub const DEPTH: usize = 64;

// A bench or a sender; those of a run are 1 to as many as its size says.
#[derive(Clone, Copy, Debug, PartialEq, Eq, PartialOrd, Ord)]
pub struct BenchNo(pub u32);

// A slot, which is also what a bench proposes and decides.
#[derive(Clone, Copy, Debug, Default, PartialEq, Eq, PartialOrd, Ord, Hash)]
pub struct SlotNo(pub u32);

// A round; the first is 1.
#[derive(Clone, Copy, Debug, Default, PartialEq, Eq, PartialOrd, Ord, Hash)]
pub struct RoundNo(pub u32);

// An answer's number, as docs/REFUSALS.md lists them: 0, done, or a refusal's. A caller that keeps the answers of 65,536 lines keeps these, a byte each.
pub type AnswerNo = u8;

// Why something is not done. What is refused changes nothing.
#[derive(Clone, Copy, Debug, PartialEq, Eq)]
pub enum Refusal {
    NoSuchBench = 1,
    SameBench = 2,
    WrongState = 3,
    LargeValue = 4,
    WrongWorld = 5,
    WorldLacksOne = 6,
    LackedByOne = 7,
    NothingWaits = 8,
    LineClosed = 9,
    HasNotFailed = 10,
    MemberAwaited = 11,
    JoinedAlready = 13,
    WrongFirstSlot = 14,
    NotJoined = 15,
    EndedAlready = 16,
    PastLastSlot = 17,
    EndAboveOpen = 18,
    EndBelowNext = 19,
    Malformed = 20,
    NotWritable = 21,
    ShortRoom = 22,
    LongText = 23,
    NotClosed = 24,
    StoreFull = 25,
}

impl Refusal {
    pub fn number(self) -> AnswerNo
        ensures { result ≡ number_of self }
    {
        self as AnswerNo
    }
}

// The number of an answer: 0 where it was done.
pub fn answer_number(answer: Result<(), Refusal>) -> AnswerNo
    ensures { result ≡ answer_of answer }
{
    match answer {
        Ok(()) => 0,
        Err(refusal) => refusal.number(),
    }
}

// What a bench says in a round. Bench i is bit i - 1 of a world.
#[derive(Clone, Copy)]
pub struct RoundMessage {
    pub round: RoundNo,
    pub value: SlotNo,
    pub world: u32,
}

#[derive(Clone, Copy)]
pub enum Message {
    Round(RoundMessage),
    Out,
}

// Start has bench, value and world; Arrive and Notice have bench and from.
#[derive(Clone, Copy)]
pub enum Step {
    Start(BenchNo, SlotNo, u32),
    Abstain(BenchNo),
    Leave(BenchNo),
    Fail(BenchNo),
    Turn(BenchNo),
    Arrive(BenchNo, BenchNo),
    Notice(BenchNo, BenchNo),
}
