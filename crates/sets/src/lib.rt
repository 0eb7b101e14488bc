// The numbers of benches, their places, and sets of benches as words: place k, which is bench k + 1, is bit k. A word has no place past 31.

#![tactic(auto)]

ghost use Rattle.std.specs.Prelude.{◌≡◌, ◌-◌, ◌%◌, ◌^◌, ◌<◌, ◌≤◌, true, false, ltb, MatchResult};
ghost use Rattle.common.specs.Benches.{is_bench};
ghost use Rattle.common.specs.Places.{has, place_of};
ghost use Rattle.kinds.specs.Sizes.{benches_of, places};

use kinds::{BenchNo, PLACES, Refusal, Size};

// A place of the tables: bench k + 1 stands at k.
#[derive(Clone, Copy)]
pub struct TablePlace {
    pub index: usize,
    pub ghost in_tables: { index < places },
}

impl TablePlace {
    // The place of a bench of a run.
    #[tactic(auto, using(crate::proofs::Numbers::bench_first, crate::proofs::Numbers::bench_placed))]
    pub fn of(bench: BenchNo, size: Size) -> Result<TablePlace, Refusal>
        ensures { MatchResult result (λ k. (is_bench (benches_of size) bench.0 ≡ true) × (k.index ≡ bench.0 - 1)) (λ r. (is_bench (benches_of size) bench.0 ≡ false) × (r ≡ Refusal.NoSuchBench)) }
    {
        if !is_bench(bench, size) {
            return Err(Refusal::NoSuchBench);
        }
        Ok(TablePlace {
            index: (bench.0 - 1) as usize,
        })
    }
}

// How many benches, or senders, there are.
#[tactic(auto, unfolding(kinds::specs::Sizes::benches_of))]
pub fn benches_of(size: Size) -> u32
    ensures { (result ≡ benches_of size) × (result ≤ places) }
{
    match size {
        Size::Sixteen => 16,
    }
}

// Whether a number is a bench's: 1 to as many as there are.
#[tactic(auto, unfolding(common::specs::Benches::is_bench))]
pub fn is_bench(bench: BenchNo, size: Size) -> bool
    ensures { result ≡ is_bench (benches_of size) bench.0 }
{
    1 <= bench.0 && bench.0 <= benches_of(size)
}

// The place of a bench in a table; of a number that has none, the first.
#[tactic(auto, unfolding(common::specs::Places::place_of, common::specs::Benches::is_bench))]
pub fn place(bench: BenchNo) -> usize
    ensures { (result ≡ place_of places bench.0) × (result < places) }
{
    let k = bench.0 as usize;
    if 1 <= k && k <= PLACES { k - 1 } else { 0 }
}

// Whether a world names only benches that there are.
#[tactic(auto, using(crate::proofs::Worlds::fits_all, crate::proofs::Worlds::fits_shift))]
pub fn fits(world: u32, size: Size) -> bool
    ensures { result ≡ ltb world (2 ^ benches_of size) }
{
    world.checked_shr(benches_of(size)).unwrap_or(0) == 0
}

// Whether the set has place k.
#[tactic(auto, using(common::proofs::Places::has_past))]
pub fn has(set: u32, k: usize) -> bool
    ensures { result ≡ has set k }
{
    k < 32 && (set >> k) % 2 == 1
}

// The set of place k alone, empty where a word has no such place.
#[tactic(auto, using(common::proofs::Places::only_past))]
pub fn only(k: usize) -> u32
    ensures { result ≡ 2 ^ k % 2 ^ 32 }
{
    if k < 32 { 1 << k } else { 0 }
}
