// Start: what is asked of the value and of the world, and of the benches that have started.

ghost use Rattle.published.specs.Rounds as published;
ghost use Rattle.kinds.specs.Sizes.{benches_of};
ghost use Rattle.kinds.specs.Refusals.{answer_of};
ghost use Rattle.rounds.specs.Stepped.{Stepped};

use crate::sends::begin;
use bench::FRESH;
use kinds::{BenchNo, Refusal, Size, SlotNo};
use reads::worlds::{lacked_by_one, lacks_one};
use sets::{TablePlace, fits, has};
use tables::Tables;

// Checks 1, 3, 4, 5, 6, 7.
#[tactic(auto, unfolding(tables::specs::Steps::table_step, tables::specs::Steps::at_bench, tables::specs::Steps::start_at))]
pub fn start(
    tables: &mut Tables,
    bench: BenchNo,
    value: SlotNo,
    world: u32,
    size: Size,
) -> Result<(), Refusal>
    ensures { Stepped (benches_of size) (answer_of result) tables.old tables.new (published.start bench.0 value.0 world) }
{
    let k = TablePlace::of(bench, size)?;
    if tables.benches[k.index].state != FRESH {
        return Err(Refusal::WrongState);
    }
    if 65535 < value.0 {
        return Err(Refusal::LargeValue);
    }
    if !fits(world, size) || !has(world, k.index) {
        return Err(Refusal::WrongWorld);
    }
    if lacks_one(&tables.benches, world, size) {
        return Err(Refusal::WorldLacksOne);
    }
    if lacked_by_one(&*tables, k.index, size) {
        return Err(Refusal::LackedByOne);
    }
    begin(tables, k, value, world);
    Ok(())
}
