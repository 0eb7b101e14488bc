// What is read off the two tables, and nothing is changed: what a report says of a bench, and what a start asks of the worlds (worlds.rt).

#![tactic(auto)]

ghost use Rattle.std.specs.Prelude.{◌≡◌, ◌-◌, true, false, MatchOption};
ghost use Rattle.common.specs.Benches.{is_bench};
ghost use Rattle.kinds.specs.Sizes.{places};
ghost use Rattle.tables.specs.Rows.{rows};
ghost use Rattle.reads.specs.Decisions.{decision_is};
ghost use Rattle.reads.specs.Reads.{state_word, sent_word, decision_at};

use bench::{Bench, FRESH};
use kinds::{BenchNo, SlotNo};
use tables::Benches;

pub mod worlds;

// The bench's state, one of those that crate `bench` names; fresh where a table has no such place.
#[tactic(auto, unfolding(crate::specs::Reads::state_word))]
pub fn state_of(benches: &Benches, bench: BenchNo) -> u32
    ensures { result ≡ state_word benches.now bench.0 }
{
    find(benches, bench).map_or(FRESH, |found| found.state)
}

// The last round that the bench sent a message of; 0 where it sent none, or a table has no such place.
#[tactic(auto, unfolding(crate::specs::Reads::sent_word))]
pub fn sent_of(benches: &Benches, bench: BenchNo) -> u32
    ensures { result ≡ sent_word benches.now bench.0 }
{
    find(benches, bench).map_or(0, |found| found.sent)
}

// What the bench has decided; nothing where a table has no such place.
#[tactic(auto, unfolding(crate::specs::Decisions::decision_is, crate::specs::Reads::decision_at, tables::specs::Runs::decision_of))]
pub fn decision_of(benches: &Benches, bench: BenchNo) -> Option<SlotNo>
    ensures { decision_is result ≡ decision_at benches.now bench.0 }
{
    let found = find(benches, bench)?;
    (found.chose == 1).then_some(found.value)
}

// The bench of a number; none where a table has no such place.
#[tactic(auto, unfolding(common::specs::Benches::is_bench))]
fn find(benches: &Benches, bench: BenchNo) -> Option<&Bench>
    ensures { MatchOption result (is_bench places bench.0 ≡ false) (λ found. (is_bench places bench.0 ≡ true) × (found.now ≡ rows benches.now (bench.0 - 1))) }
{
    benches.get((bench.0 as usize).checked_sub(1)?)
}
