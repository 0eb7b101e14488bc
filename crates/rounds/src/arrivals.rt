// Arrive and notice: what a bench takes of a line, and what closes it.

ghost use Rattle.std.specs.Prelude.{◌≡◌, ◌-◌, ◌&&◌, true, false, cond, eqb, MatchResult};
ghost use Rattle.common.specs.Benches.{is_bench};
ghost use Rattle.published.specs.Rounds as published;
ghost use Rattle.kinds.specs.Sizes.{benches_of};
ghost use Rattle.kinds.specs.Refusals.{number_of, answer_of};
ghost use Rattle.rounds.specs.Stepped.{Stepped};

use crate::lines::next_on;
use bench::{LEFT, RUNNING};
use kinds::{BenchNo, Refusal, Size};
use sets::{TablePlace, has};
use tables::Tables;

// Checks 1, 2, 3, 9, 8. The bench takes the next message of the line.
#[tactic(auto, unfolding(tables::specs::Steps::table_step, tables::specs::Steps::at_benches, tables::specs::Steps::arrive_at, tables::specs::Steps::take_next))]
pub fn arrive(tables: &mut Tables, bench: BenchNo, from: BenchNo, size: Size) -> Result<(), Refusal>
    ensures { Stepped (benches_of size) (answer_of result) tables.old tables.new (published.arrive bench.0 from.0) }
{
    let (k, j) = two_places(bench, from, size)?;
    let here = &tables.benches[k.index];
    if RUNNING < here.state {
        return Err(Refusal::WrongState);
    }
    if has(here.noticed, j.index) {
        return Err(Refusal::LineClosed);
    }
    let m = next_on(&*tables, k, j).ok_or(Refusal::NothingWaits)?;
    tables.benches[k.index].take_at(j, m);
    Ok(())
}

// Checks 1, 2, 3, 10, 9. The bench learns that the other has failed.
#[tactic(auto, unfolding(tables::specs::Steps::table_step, tables::specs::Steps::at_benches, tables::specs::Steps::notice_at))]
pub fn notice(tables: &mut Tables, bench: BenchNo, from: BenchNo, size: Size) -> Result<(), Refusal>
    ensures { Stepped (benches_of size) (answer_of result) tables.old tables.new (published.notice bench.0 from.0) }
{
    let (k, j) = two_places(bench, from, size)?;
    if RUNNING < tables.benches[k.index].state {
        return Err(Refusal::WrongState);
    }
    if tables.benches[j.index].state <= LEFT {
        return Err(Refusal::HasNotFailed);
    }
    if has(tables.benches[k.index].noticed, j.index) {
        return Err(Refusal::LineClosed);
    }
    tables.benches[k.index].notice_at(j);
    Ok(())
}

// Checks 1 and 2, and the places of the bench and of the sender.
fn two_places(
    bench: BenchNo,
    from: BenchNo,
    size: Size,
) -> Result<(TablePlace, TablePlace), Refusal>
    ensures { let known = is_bench (benches_of size) bench.0 && is_bench (benches_of size) from.0 in
        MatchResult result
        (λ p. (known ≡ true) × (eqb bench.0 from.0 ≡ false) × (p.0.index ≡ bench.0 - 1) × (p.1.index ≡ from.0 - 1))
        (λ r. (cond known (eqb bench.0 from.0) true ≡ true) × (number_of r ≡ cond known 2 1)) }
{
    let k = TablePlace::of(bench, size)?;
    let j = TablePlace::of(from, size)?;
    if bench == from {
        Err(Refusal::SameBench)
    } else {
        Ok((k, j))
    }
}
