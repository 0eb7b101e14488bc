// What start asks of the worlds: two visits of the benches.
ghost use Rattle.std.specs.Prelude.{◌≡◌, ◌<◌};
ghost use Rattle.kinds.specs.Sizes.{benches_of, places};
ghost use Rattle.tables.specs.Steps.{lacks_at, lacks_one, lacked_at, lacked_by_one};

use bench::{DECIDED, RUNNING};
use kinds::Size;
use sets::{benches_of, has};
use tables::{Benches, Tables};

// Whether the world lacks a bench that has started and has neither left nor failed.
pub fn lacks_one(benches: &Benches, world: u32, size: Size) -> bool
    ensures { result ≡ lacks_one (benches_of size) benches.now world }
{
    (0..benches_of(size) as usize).any(|j| lacks_at(benches, world, j))
}

// Whether the world of some bench that ever started lacks the bench at k.
pub fn lacked_by_one(tables: &Tables, k: usize, size: Size) -> bool
    ensures { result ≡ lacked_by_one (benches_of size) tables.now.benches tables.now.logs k }
{
    (0..benches_of(size) as usize).any(|j| lacked_at(tables, k, j))
}

#[tactic(auto, unfolding(tables::specs::Steps::lacks_at))]
fn lacks_at(benches: &Benches, world: u32, j: usize) -> bool
    requires { j < places }
    ensures { result ≡ lacks_at benches.now world j }
{
    matches!(benches[j].state, RUNNING | DECIDED) && !has(world, j)
}

#[tactic(auto, unfolding(tables::specs::Steps::lacked_at))]
fn lacked_at(tables: &Tables, k: usize, j: usize) -> bool
    requires { j < places }
    ensures { result ≡ lacked_at tables.now.benches tables.now.logs k j }
{
    0 < tables.benches[j].sent && !has(tables.logs[j][0].world, k)
}
