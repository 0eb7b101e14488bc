// What a message, a notice and a round that it enters make of a bench: in place, as a run's tables have it, and by value.

ghost use Rattle.std.specs.Prelude.{◌≡◌};
ghost use Rattle.kinds.specs.Sizes.{benches_of};
ghost use Rattle.bench.specs.Changes.{take_of, take_from, notice_of, notice_from, in_round};

use crate::{Bench, RUNNING};
use kinds::{BenchNo, Message, RoundMessage, Size};
use sets::{TablePlace, only};

impl Bench {
    // The bench takes a message of bench `from`; its own too. It stays as it was where there is no such bench.
    #[tactic(auto, unfolding(crate::specs::Changes::take_from))]
    pub fn take(mut self, from: BenchNo, m: Message, size: Size) -> Bench
        ensures { result ≡ take_from (benches_of size) self from.0 m }
    {
        if let Ok(k) = TablePlace::of(from, size) {
            self.take_at(k, m);
        }
        self
    }

    // The bench learns that bench `from` has failed. It stays as it was where there is no such bench.
    #[tactic(auto, unfolding(crate::specs::Changes::notice_from))]
    pub fn notice(mut self, from: BenchNo, size: Size) -> Bench
        ensures { result ≡ notice_from (benches_of size) self from.0 }
    {
        if let Ok(k) = TablePlace::of(from, size) {
            self.notice_at(k);
        }
        self
    }

    // The bench runs in the round of its message, with the message's value and world.
    #[tactic(auto, unfolding(crate::specs::Changes::in_round))]
    pub fn enter(&mut self, said: RoundMessage)
        ensures { self.new ≡ in_round said.round.0 said.value said.world self.old }
    {
        self.state = RUNNING;
        self.round = said.round;
        self.value = said.value;
        self.world = said.world;
    }

    // Lines are in order and without gaps, so of a round message its round is the count.
    #[tactic(auto, unfolding(crate::specs::Changes::take_of, crate::specs::Changes::taken_of, crate::specs::Changes::out_of), using(common::proofs::Places::only_small))]
    pub fn take_at(&mut self, k: TablePlace, m: Message)
        ensures { self.new ≡ take_of self.old k.index m }
    {
        match m {
            Message::Round(said) => self.taken[k.index] = said.round.0,
            Message::Out => self.outs |= only(k.index),
        }
    }

    #[tactic(auto, unfolding(crate::specs::Changes::notice_of), using(common::proofs::Places::only_small))]
    pub fn notice_at(&mut self, k: TablePlace)
        ensures { self.new ≡ notice_of self.old k.index }
    {
        self.noticed |= only(k.index);
    }
}
