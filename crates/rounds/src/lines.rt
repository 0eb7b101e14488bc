// A line is the sender's log and the receiver's count: what waits on it, and what a bench has heard of its round.

ghost use Rattle.std.specs.Prelude.{◌≡◌};
ghost use Rattle.kinds.specs.Sizes.{benches_of};
ghost use Rattle.tables.specs.Lines.{heard_of};
ghost use Rattle.tables.specs.Steps.{next_on};

use bench::{Bench, Heard, NO_ENTRY};
use kinds::{DEPTH, Message, PLACES, RoundMessage, RoundNo, Size};
use sets::{TablePlace, benches_of, has, only};
use tables::{Logs, Tables};

// What waits for the bench at k on the line from the bench at j.
#[tactic(auto, unfolding(tables::specs::Steps::next_on, tables::specs::Lines::waiting_of))]
pub(crate) fn next_on(tables: &Tables, k: TablePlace, j: TablePlace) -> Option<Message>
    ensures { result ≡ next_on tables.now.benches tables.now.logs k.index j.index }
{
    let to = &tables.benches[k.index];
    let from = &tables.benches[j.index];
    let n = to.taken[j.index];
    if n < from.sent {
        let said = tables.logs[j.index].get(n as usize)?;
        return Some(Message::Round(RoundMessage {
            round: RoundNo(n + 1),
            value: said.value,
            world: said.world,
        }));
    }
    (from.silent == 1 && !has(to.outs, j.index)).then_some(Message::Out)
}

// What a bench has heard of its round: of each sender whose message of that round it has taken. A loop by place, since a set, a row and all
// logs are gone through at the same place.
#[tactic(auto, using(common::proofs::Places::only_small, crate::proofs::Hearing::heard_more, crate::proofs::Hearing::heard_same), unfolding(tables::specs::Lines::heard_of, tables::specs::Lines::heard_to, tables::specs::Lines::with_message))]
pub(crate) fn heard_by(bench: &Bench, logs: &Logs, size: Size) -> Heard
    ensures { result ≡ heard_of (benches_of size) logs.now bench.now }
{
    let r = bench.round.0;
    let mut heard = Heard {
        set: 0,
        entries: [NO_ENTRY; PLACES],
    };
    if r < 1 || r > DEPTH as u32 {
        return heard;
    }
    let at = (r - 1) as usize;
    let n = benches_of(size) as usize;
    for j in 0..n {
        if r <= bench.taken[j] {
            heard.set |= only(j);
            heard.entries[j] = logs[j][at];
        }
    }
    heard
}
