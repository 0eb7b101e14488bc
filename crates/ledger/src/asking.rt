// The checks of each step, in their order, behind the one whether the number is a sender's.
ghost use Rattle.std.specs.Prelude.{◌≡◌, true, ℕ, ◌≤◌, ◌<◌, length, ltb, OnOk};
ghost use Rattle.common.specs.Benches.{is_bench};
ghost use Rattle.book.specs.Book.{last_slot, Book, join, sweep, close, end, step, is_open, open_slot};
ghost use Rattle.kinds.specs.Refusals.{answer_of};
ghost use Rattle.senders.specs.Rows.{row_is};
ghost use Rattle.ledger.specs.Seen.{room_words};

use crate::{LAST_SLOT, ROOM};
use kinds::{Refusal, SlotNo};
use senders::Row;

pub(crate) fn may_join(row: Row, next: SlotNo, first: SlotNo) -> Result<(), Refusal>
    ensures { (n : ℕ) (b : Book) (s : ℕ) → is_bench n s ≡ true → b.rows s ≡ row_is row → b.next ≡ next.0 → answer_of result ≡ (step n b (join s first.0)).number }
{
    if row.has_joined() {
        return Err(Refusal::JoinedAlready);
    }
    if first < next || LAST_SLOT < first.0 {
        return Err(Refusal::WrongFirstSlot);
    }
    Ok(())
}

pub(crate) fn may_close(row: Row) -> Result<(), Refusal>
    ensures ok { OnOk result ((is_open (row_is row) ≡ true) × (open_slot (row_is row) ≤ last_slot)) }
    ensures number { (n : ℕ) (b : Book) (s : ℕ) → is_bench n s ≡ true → b.rows s ≡ row_is row → answer_of result ≡ (step n b (close s)).number }
{
    if !row.is_open() {
        return Err(Refusal::NotJoined);
    }
    if LAST_SLOT < row.open_slot().0 {
        return Err(Refusal::PastLastSlot);
    }
    Ok(())
}

pub(crate) fn may_sweep(row: Row, held: u32) -> Result<(), Refusal>
    ensures number { (n : ℕ) (b : Book) (s tag : ℕ) → is_bench n s ≡ true → b.rows s ≡ row_is row → ltb (length b.held) room_words ≡ ltb held room_words → answer_of result ≡ (step n b (sweep s tag)).number }
    ensures ok { OnOk result ((open_slot (row_is row) ≤ last_slot) × (held < room_words)) }
{
    may_close(row)?;
    if ROOM as u32 <= held {
        return Err(Refusal::StoreFull);
    }
    Ok(())
}

pub(crate) fn may_end(row: Row, next: SlotNo, slot: SlotNo) -> Result<(), Refusal>
    ensures { (n : ℕ) (b : Book) (s : ℕ) → is_bench n s ≡ true → b.rows s ≡ row_is row → b.next ≡ next.0 → answer_of result ≡ (step n b (end s slot.0)).number }
{
    if !row.has_joined() {
        return Err(Refusal::NotJoined);
    }
    if !row.is_open() {
        return Err(Refusal::EndedAlready);
    }
    if row.open_slot() < slot {
        return Err(Refusal::EndAboveOpen);
    }
    if slot < next {
        return Err(Refusal::EndBelowNext);
    }
    Ok(())
}
