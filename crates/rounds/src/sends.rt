// A bench sends: its message stands in its log, and it has it at once.

ghost use Rattle.std.specs.Prelude.{◌≡◌};
ghost use Rattle.kinds.specs.declared.Message.TheVariants.{Out};
ghost use Rattle.bench.specs.Changes.{in_state, in_round};
ghost use Rattle.tables.specs.Rows.{rows};
ghost use Rattle.tables.specs.Lines.{message};
ghost use Rattle.tables.specs.Steps.{sent_of};
ghost use Rattle.rounds.specs.Sending.{HasRoom};

use bench::{Bench, Entry};
use kinds::{Message, RoundMessage, RoundNo, SlotNo};
use sets::TablePlace;
use tables::Tables;

// The bench at k, now `bench`, sends a message.
#[tactic(auto, unfolding(tables::specs::Steps::sent_of, bench::specs::Changes::sent_to, bench::specs::Changes::sent_out))]
pub(crate) fn send(tables: &mut Tables, k: TablePlace, mut bench: Bench, m: Message)
    requires { HasRoom m }
    ensures { tables.new ≡ sent_of tables.old.benches tables.old.logs k.index bench m }
{
    bench.take_at(k, m);
    match m {
        Message::Round(said) => {
            bench.sent = said.round.0;
            tables.logs[k.index][(said.round.0 - 1) as usize] = Entry {
                value: said.value,
                world: said.world,
            };
        }
        Message::Out => bench.silent = 1,
    }
    tables.benches[k.index] = bench;
}

// The bench at k runs in round 1 and sends that round's message.
pub(crate) fn begin(tables: &mut Tables, k: TablePlace, value: SlotNo, world: u32)
    ensures { tables.new ≡ sent_of tables.old.benches tables.old.logs k.index (in_round 1 value world (rows tables.old.benches k.index)) (message 1 value.0 world) }
{
    let said = RoundMessage {
        round: RoundNo(1),
        value,
        world,
    };
    let mut bench = tables.benches[k.index];
    bench.enter(said);
    send(tables, k, bench, Message::Round(said));
}

// The bench at k goes to a state and sends OUT.
#[tactic(auto, unfolding(bench::specs::Changes::in_state))]
pub(crate) fn part(tables: &mut Tables, k: TablePlace, state: u32)
    ensures { tables.new ≡ sent_of tables.old.benches tables.old.logs k.index (in_state state (rows tables.old.benches k.index)) Out }
{
    let mut bench = tables.benches[k.index];
    bench.state = state;
    send(tables, k, bench, Message::Out);
}
