// A bench's turn, in three visits of the members of its world: is one awaited, does one forbid a decision, what was heard.

ghost use Rattle.std.specs.Prelude.{◌≡◌, ◌<◌};
ghost use Rattle.kinds.specs.Sizes.{benches_of, places};
ghost use Rattle.bench.specs.Turns.{awaited_at, awaits_of, forbids_at, forbids_of, gather_of, refuses, concludes, next_round, go_on_of, turn_of};

use crate::{Bench, DECIDED, Entry, Heard, RUNNING, Turn, Turned};
use kinds::{DEPTH, Message, Refusal, RoundMessage, RoundNo, Size};
use sets::{benches_of, has};

impl Bench {
    // The bench looks at each member of its world. Where it refuses, the bench is handed back as it was.
    #[tactic(auto, unfolding(crate::specs::Turns::turn_of))]
    pub fn turn(self, h: Heard, size: Size) -> Turned
        ensures { result ≡ turn_of (benches_of size) self h }
    {
        if self.state != RUNNING {
            return self.refused(Refusal::WrongState);
        }
        if self.awaits(&h, size) {
            return self.refused(Refusal::MemberAwaited);
        }
        if !self.forbids(&h, size) {
            return self.concluded();
        }
        self.go_on(&h, size)
    }

    // The first visit: whether some member is awaited.
    fn awaits(&self, h: &Heard, size: Size) -> bool
        ensures { result ≡ awaits_of (benches_of size) self.now h.now }
    {
        (0..benches_of(size) as usize).any(|k| self.awaited_at(h, k))
    }

    // The second visit: whether some member forbids a decision.
    fn forbids(&self, h: &Heard, size: Size) -> bool
        ensures { result ≡ forbids_of (benches_of size) self.now h.now }
    {
        (0..benches_of(size) as usize).any(|k| self.forbids_at(h, k))
    }

    // The third visit: the least value heard from a member, and the members heard. It goes by place, since the set says whose entries count.
    #[tactic(auto, using(crate::proofs::Visits::least_heard, crate::proofs::Visits::least_other), unfolding(crate::specs::Turns::least, crate::specs::Turns::gather_of))]
    fn gather(&self, h: &Heard, size: Size) -> Entry
        ensures { result ≡ gather_of (benches_of size) self.now h.now }
    {
        let both = self.world & h.set;
        let mut value = self.value;
        let n = benches_of(size) as usize;
        for k in 0..n {
            if has(both, k) {
                value = value.min(h.entries[k].value);
            }
        }
        Entry { value, world: both }
    }

    // Whether place k is a member that is awaited: not heard, no OUT has come, no failure is noticed.
    #[tactic(auto, unfolding(crate::specs::Turns::awaited_at))]
    fn awaited_at(&self, h: &Heard, k: usize) -> bool
        ensures { result ≡ awaited_at self.now h.now k }
    {
        has(self.world, k) && !has(h.set, k) && !has(self.outs, k) && !has(self.noticed, k)
    }

    // Whether place k is a member that forbids a decision: heard with another value or with a world not within the bench's own, or
    // neither heard nor excused.
    #[tactic(auto, unfolding(crate::specs::Turns::forbids_at, crate::specs::Turns::forbids_by, crate::specs::Turns::differs))]
    fn forbids_at(&self, h: &Heard, k: usize) -> bool
        requires { k < places }
        ensures { result ≡ forbids_at self.now h.now k }
    {
        if !has(self.world, k) {
            return false;
        }
        if !has(h.set, k) {
            return !has(self.outs, k);
        }
        let Entry { value, world } = h.entries[k];
        value != self.value || (world & self.world) != world
    }

    fn refused(self, refusal: Refusal) -> Turned
        ensures { result ≡ refuses self refusal }
    {
        Turned {
            bench: self,
            answer: Err(refusal),
        }
    }

    // The bench decides on its value and has OUT to send.
    #[tactic(auto, unfolding(crate::specs::Changes::choosing))]
    fn concluded(self) -> Turned
        ensures { result ≡ concludes self }
    {
        let mut bench = self;
        bench.state = DECIDED;
        bench.chose = 1;
        Turned {
            bench,
            answer: Ok(Turn::Decided(self.value, Message::Out)),
        }
    }

    // The bench is in the next round, with the least value heard and the members heard, and has that round's message to send.
    #[tactic(auto, unfolding(crate::specs::Turns::go_on_of, crate::specs::Changes::in_round))]
    fn go_on(self, h: &Heard, size: Size) -> Turned
        ensures { result ≡ go_on_of (benches_of size) self h.now }
    {
        let Entry { value, world } = self.gather(h, size);
        let said = RoundMessage {
            round: RoundNo(round_after(self.round.0)),
            value,
            world,
        };
        let mut bench = self;
        bench.enter(said);
        Turned {
            bench,
            answer: Ok(Turn::Went(Message::Round(said))),
        }
    }
}

// The round after. Behind the last that a log has comes the first: no run gets there, but a bench by value may stand in any round.
#[tactic(auto, unfolding(crate::specs::Turns::next_round))]
fn round_after(r: u32) -> u32
    ensures { result ≡ next_round r }
{
    r % DEPTH as u32 + 1
}
