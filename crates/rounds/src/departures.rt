// Abstain, leave and fail: check 3, then OUT, or silence.

ghost use Rattle.published.specs.Rounds as published;
ghost use Rattle.kinds.specs.Sizes.{benches_of};
ghost use Rattle.kinds.specs.Refusals.{answer_of};
ghost use Rattle.rounds.specs.Stepped.{Stepped};

use crate::sends::part;
use bench::{ABSTAINED, FAILED, FRESH, LEFT};
use kinds::{BenchNo, Refusal, Size};
use sets::TablePlace;
use tables::Tables;

// Checks 1, 3.
#[tactic(auto, unfolding(tables::specs::Steps::table_step, tables::specs::Steps::at_bench, tables::specs::Steps::abstain_at))]
pub fn abstain(tables: &mut Tables, bench: BenchNo, size: Size) -> Result<(), Refusal>
    ensures { Stepped (benches_of size) (answer_of result) tables.old tables.new (published.abstain bench.0) }
{
    let k = TablePlace::of(bench, size)?;
    if tables.benches[k.index].state != FRESH {
        return Err(Refusal::WrongState);
    }
    part(tables, k, ABSTAINED);
    Ok(())
}

// Checks 1, 3. OUT is sent once: a bench that has decided or abstained only changes its state.
#[tactic(auto, unfolding(tables::specs::Steps::table_step, tables::specs::Steps::at_bench, tables::specs::Steps::leave_at, bench::specs::Changes::in_state))]
pub fn leave(tables: &mut Tables, bench: BenchNo, size: Size) -> Result<(), Refusal>
    ensures { Stepped (benches_of size) (answer_of result) tables.old tables.new (published.leave bench.0) }
{
    let k = TablePlace::of(bench, size)?;
    let here = &mut tables.benches[k.index];
    if ABSTAINED < here.state {
        return Err(Refusal::WrongState);
    }
    if here.silent == 1 {
        here.state = LEFT;
    } else {
        part(tables, k, LEFT);
    }
    Ok(())
}

// Checks 1, 3. A bench fails in silence.
#[tactic(auto, unfolding(tables::specs::Steps::table_step, tables::specs::Steps::at_bench, tables::specs::Steps::fail_at, bench::specs::Changes::in_state))]
pub fn fail(tables: &mut Tables, bench: BenchNo, size: Size) -> Result<(), Refusal>
    ensures { Stepped (benches_of size) (answer_of result) tables.old tables.new (published.fail bench.0) }
{
    let k = TablePlace::of(bench, size)?;
    let here = &mut tables.benches[k.index];
    if ABSTAINED < here.state {
        return Err(Refusal::WrongState);
    }
    here.state = FAILED;
    Ok(())
}
