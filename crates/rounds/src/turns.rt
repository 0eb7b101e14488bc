// Turn: what the bench makes of what it has heard, and what it sends.

ghost use Rattle.published.specs.Rounds as published;
ghost use Rattle.kinds.specs.Sizes.{benches_of};
ghost use Rattle.kinds.specs.Refusals.{answer_of};
ghost use Rattle.rounds.specs.Stepped.{Stepped};

use crate::lines::heard_by;
use crate::sends::send;
use bench::RUNNING;
use kinds::{BenchNo, Refusal, Size};
use sets::TablePlace;
use tables::Tables;

// Checks 1, 3, 11. The state is looked at first, since nothing need be gathered from the logs for a bench that is not running.
#[tactic(auto, unfolding(tables::specs::Steps::table_step, tables::specs::Steps::at_bench, tables::specs::Steps::turn_at, tables::specs::Steps::turn_on, tables::specs::Steps::turn_by, bench::specs::Turns::turn_of))]
pub fn turn(tables: &mut Tables, bench: BenchNo, size: Size) -> Result<(), Refusal>
    ensures { Stepped (benches_of size) (answer_of result) tables.old tables.new (published.turn bench.0) }
{
    let k = TablePlace::of(bench, size)?;
    let here = &tables.benches[k.index];
    if here.state != RUNNING {
        return Err(Refusal::WrongState);
    }
    let turned = here.turn(heard_by(here, &tables.logs, size), size);
    let m = turned.answer?.message();
    send(tables, k, turned.bench, m);
    Ok(())
}
