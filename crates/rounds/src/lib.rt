// A run in its two tables, which the caller lends. The seven steps, and one over all of them.
// Each promises `table_step` of crate `tables`, for all tables that can be handed in: the answer and both tables after. A refusal leaves
// both as they were.

#![tactic(auto)]

mod arrivals;
mod departures;
mod lines;
mod sends;
mod starts;
mod turns;

ghost use Rattle.std.specs.Prelude.{◌≡◌};
ghost use Rattle.kinds.specs.Stand.{step_of};
ghost use Rattle.kinds.specs.Sizes.{benches_of};
ghost use Rattle.kinds.specs.Refusals.{answer_of};
ghost use Rattle.tables.specs.Steps.{empty_tables};
ghost use Rattle.rounds.specs.Stepped.{Stepped};

pub use crate::arrivals::{arrive, notice};
pub use crate::departures::{abstain, fail, leave};
pub use crate::starts::start;
pub use crate::turns::turn;
use kinds::{Refusal, Size, Step};
use tables::Tables;

// A new run: every bench is fresh and every log is blank.
pub fn empty(tables: &mut Tables)
    ensures { tables.new ≡ empty_tables }
{
    *tables = Tables::new();
}

// A `match` and no closures: each step has other parameters.
#[tactic(auto, unfolding(kinds::specs::Stand::step_of))]
pub fn step(tables: &mut Tables, s: Step, size: Size) -> Result<(), Refusal>
    ensures { Stepped (benches_of size) (answer_of result) tables.old tables.new (step_of s) }
{
    match s {
        Step::Start(bench, value, world) => start(tables, bench, value, world, size),
        Step::Abstain(bench) => abstain(tables, bench, size),
        Step::Leave(bench) => leave(tables, bench, size),
        Step::Fail(bench) => fail(tables, bench, size),
        Step::Turn(bench) => turn(tables, bench, size),
        Step::Arrive(bench, from) => arrive(tables, bench, from, size),
        Step::Notice(bench, from) => notice(tables, bench, from, size),
    }
}
