// The sweeps of the room: the first of a slot, and a part of them taken out.
ghost use Rattle.std.specs.Prelude.{◌≡◌, [], false, ◌||◌, ◌<◌, ◌≤◌, length};
ghost use Rattle.std.specs.List.{fold, position_or_len};
ghost use Rattle.book.specs.Book.{only};
ghost use Rattle.ledger.specs.Seen.{held_in};
ghost use Rattle.ledger.specs.Sweeps.{of_slot, Gone, Tests, TakesOut};

use crate::Sweep;
use kinds::SlotNo;

impl Sweep {
    pub(crate) fn is_of(self, slot: SlotNo) -> bool
        ensures { result ≡ of_slot slot.0 self }
    {
        self.slot as u32 == slot.0
    }
}

// The place of the first sweep of the slot, or how many there are: they are passed by blocks of 32, then of 8, then one by one. A block's sweeps are
// compared without a branch between, in vector code: a slot that a full room does not have is looked for in 1.8 instructions a sweep by 32 and in
// 2.4 by 8, and a rest of up to 31 is passed by 8 in half of what it takes one by one.
pub(crate) fn skipped(sweeps: &[Sweep], slot: SlotNo) -> usize
    ensures within { result ≤ length sweeps.now }
    ensures first { result ≡ position_or_len (of_slot slot.0) sweeps.now }
{
    let far = passed_blocks::<32>(sweeps, slot);
    let near = far + passed_blocks::<8>(&sweeps[far..], slot);
    near + passed_ones(&sweeps[near..], slot)
}

// How many sweeps stand in the blocks before the first one that has a sweep of the slot.
fn passed_blocks<const BLOCK: usize>(sweeps: &[Sweep], slot: SlotNo) -> usize
    requires { 0 < BLOCK }
    ensures within { result ≤ length sweeps.now }
    ensures none { result ≤ position_or_len (of_slot slot.0) sweeps.now }
{
    let mut passed = 0;
    for block in sweeps.chunks_exact(BLOCK) {
        if any_of(block, slot) {
            break;
        }
        passed += BLOCK;
    }
    passed
}

// How many sweeps stand before the first one of the slot.
fn passed_ones(sweeps: &[Sweep], slot: SlotNo) -> usize
    ensures { result ≡ position_or_len (of_slot slot.0) sweeps.now }
{
    sweeps.iter().take_while(|sweep| !sweep.is_of(slot)).count()
}

// Whether a sweep is of the slot. Each is compared, whatever those before it are.
fn any_of(block: &[Sweep], slot: SlotNo) -> bool
    ensures { result ≡ fold (λ found sweep. found || of_slot slot.0 sweep) false block.now }
{
    block
        .iter()
        .fold(false, |found, sweep| found | sweep.is_of(slot))
}

// Takes out of the first `held` sweeps those that go, of which none stands before `from`: what is left moves to the front, in order, and the
// sweeps past it stay. How many are left.
pub(crate) fn take_out<F: Fn(Sweep) -> bool>(
    room: &mut [Sweep],
    from: usize,
    held: usize,
    goes: F,
) -> usize
    requires callable { F.IsAlwaysCallable goes }
    requires within { (from ≤ held) × (held ≤ length room.old) }
    ensures few { result ≤ held }
    ensures taken { (p : Gone) → Tests (F.post goes) p → only p (held_in from room.old) ≡ [] → TakesOut p held room.old result room.new }
{
    // By index: the slice that is read is the one that is written, and no method of a slice takes places out of it.
    let mut k = from;
    for i in from..held {
        let sweep = room[i];
        if !goes(sweep) {
            room[k] = sweep;
            k += 1;
        }
    }
    k
}
