// One bench's store of received sweeps, handed out slot by slot: `Ledger`, and its steps in place. A step that is refused says why, and changes
// nothing. specs/Book.antt of `book` says what each step does, specs/Seen.antt which book a ledger is, specs/Promises.antt what is promised.

#![tactic(auto)]

use advancing::advance;
use asking::{may_close, may_end, may_join, may_sweep};
use kinds::{BenchNo, Refusal, Size, SlotNo};
use order::write_tags;
pub use senders::{LAST_SLOT, Row, SenderRow, Senders};
use sets::{TablePlace, only};
use sweeps::{skipped, take_out};

mod advancing; // advancing.rt: the cursor
mod asking; // asking.rt: the checks of each step
mod order; // order.rt: the tags of a slot in the order of hand-out
mod sweeps; // sweeps.rt: the sweeps of the room

// The last slot that is ever handed out: `last_out` of `book`.
pub const LAST_OUT: u32 = 65533;

// How many sweeps can be held: `most_held` of `book`.
pub const ROOM: usize = 1024;

// Where the ledger stands: the next slot to hand out, and how many sweeps are held.
#[derive(Clone, Copy, Debug, Default, PartialEq, Eq, PartialOrd, Ord, Hash)]
pub struct Cursor {
    pub next: SlotNo,
    pub held: u32,
}

impl Cursor {
    ghost use Rattle.std.specs.Prelude.{◌≡◌};
    ghost use Rattle.book.specs.Book.{new_book};
    ghost use Rattle.ledger.specs.Promises.{cursor_of};

    // Nothing is handed out before the slot at which it begins, and nothing is held.
    #[tactic(auto, unfolding(book::specs::Book::new_book, crate::specs::Promises::cursor_of))]
    fn new(begin: SlotNo) -> Cursor
        ensures { result ≡ cursor_of (new_book begin.0) }
    {
        Cursor {
            next: begin,
            held: 0,
        }
    }
}

// A sweep that is held. Its numbers are as narrow as they can be, so that the room is 8 KiB and the slots are soon compared.
#[derive(Clone, Copy, Debug, Default, PartialEq, Eq, PartialOrd, Ord, Hash)]
pub struct Sweep {
    pub sender: u16,
    pub slot: u16,
    pub tag: u32,
}

// The first places of the room have the sweeps held, in order of arrival; the others say nothing.
#[derive(Clone, Copy, Debug, Default, PartialEq, Eq, PartialOrd, Ord, Hash)]
pub struct Ledger {
    pub cursor: Cursor,
    pub senders: Senders,
    pub room: [Sweep; ROOM],
}

impl Ledger {
    ghost use Rattle.std.specs.Prelude.{◌≡◌, ◌<◌, ◌≤◌, true, false, suc, min, replicate, IfOk, IfErr};
    ghost use Rattle.book.specs.Book.{last_out, join, close, sweep, end, may_go};
    ghost use Rattle.common.specs.Benches.{is_bench};
    ghost use Rattle.kinds.specs.Sizes.{benches_of, places};
    ghost use Rattle.kinds.specs.Refusals.{answer_of};
    ghost use Rattle.senders.specs.Rows.{row_is};
    ghost use Rattle.ledger.specs.Seen.{room_words, rows_by};
    ghost use Rattle.ledger.specs.Promises.{Tells, Hands, Begins, no_sweep};

    // A ledger that begins at a slot: nobody has joined, and nothing is held.
    pub fn new(begin: SlotNo) -> Ledger
        ensures begins { Begins begin.0 result }
        ensures room { result.room ≡ replicate room_words no_sweep }
    {
        Ledger {
            cursor: Cursor::new(begin),
            senders: Senders::nobody(),
            room: [Sweep {
                sender: 0,
                slot: 0,
                tag: 0,
            }; ROOM],
        }
    }

    // The same in place. What the room has stays there, and says nothing.
    pub fn clear(&mut self, begin: SlotNo)
        ensures begins { Begins begin.0 self.new }
        ensures room { self.new.room ≡ self.old.room }
    {
        self.cursor = Cursor::new(begin);
        self.senders = Senders::nobody();
    }

    // What the ledger knows of a sender; of a number that has no row, nothing.
    pub fn row_of(&self, sender: BenchNo) -> Row
        ensures { row_is result ≡ rows_by self.now sender.0 }
    {
        match sender.0.checked_sub(1) {
            None => Row::Unknown,
            Some(i) => self.senders.row_at(i as usize),
        }
    }

    // The sender's open slot is `first` from now on. What is held stays.
    pub fn join(&mut self, sender: BenchNo, first: SlotNo, size: Size) -> Result<(), Refusal>
        ensures { Tells (benches_of size) self.old (join sender.0 first.0) (answer_of result) self.new }
    {
        let (i, row) = self.known(sender, size)?;
        may_join(row, self.cursor.next, first)?;
        self.senders.rows[i] = SenderRow::from(Row::Joined { first, open: first });
        self.senders.joined |= only(i);
        Ok(())
    }

    // The sender's open slot is complete, and the next one opens. The cursor and the room stay.
    pub fn close(&mut self, sender: BenchNo, size: Size) -> Result<(), Refusal>
        ensures { Tells (benches_of size) self.old (close sender.0) (answer_of result) self.new }
    {
        let (i, row) = self.known(sender, size)?;
        may_close(row)?;
        self.senders.rows[i] = SenderRow::from(row.closed());
        Ok(())
    }

    // A sweep is held under the sender's open slot.
    pub fn sweep(&mut self, sender: BenchNo, tag: u32, size: Size) -> Result<(), Refusal>
        ensures { Tells (benches_of size) self.old (sweep sender.0 tag) (answer_of result) self.new }
    {
        let (_, row) = self.known(sender, size)?;
        may_sweep(row, self.cursor.held)?;
        self.room[self.cursor.held as usize] = Sweep {
            sender: sender.0 as u16,
            slot: row.open_slot().0 as u16,
            tag,
        };
        self.cursor.held += 1;
        Ok(())
    }

    // The sender counts in no slot from `slot` on, and its sweeps held for such slots are dropped: their places are used again.
    pub fn end(&mut self, sender: BenchNo, slot: SlotNo, size: Size) -> Result<(), Refusal>
        ensures { Tells (benches_of size) self.old (end sender.0 slot.0) (answer_of result) self.new }
    {
        let (i, row) = self.known(sender, size)?;
        may_end(row, self.cursor.next, slot)?;
        let held = self.held();
        let left = take_out(&mut self.room, 0, held, |sweep| {
            sweep.sender as u32 == sender.0 && slot.0 <= sweep.slot as u32
        });
        self.senders.rows[i] = SenderRow::from(row.ended(slot));
        self.cursor.held = left as u32;
        Ok(())
    }

    // Writes the tags of the next slot, if every member of it has closed it, every member of the slot after it has closed that, and `out` has
    // room for them: senders in rising number, each sender's in order of arrival. How many. Places past the last tag keep what they held; the
    // places of the sweeps are used again.
    pub fn hand_out(&mut self, out: &mut [u32], size: Size) -> Result<usize, Refusal>
        ensures { Hands (benches_of size) self.old out.old result self.new out.new }
    {
        let next = self.cursor.next;
        if LAST_OUT < next.0 {
            return Err(Refusal::PastLastSlot);
        }
        let after = SlotNo(next.0 + 1);
        if !self.senders.all_closed(next, after, size) {
            return Err(Refusal::NotClosed);
        }
        self.give(out, size)
    }

    // The hand-out of a slot that may go. Where nothing held is of the slot, nothing is written and no sweep moves.
    fn give(&mut self, out: &mut [u32], size: Size) -> Result<usize, Refusal>
        requires { (self.old.cursor.next.0 ≤ last_out) × (may_go (benches_of size) self.old.cursor.next.0 (rows_by self.old) ≡ true) }
        ensures { Hands (benches_of size) self.old out.old result self.new out.new }
    {
        let next = self.cursor.next;
        let held = self.held();
        let from = skipped(&self.room[..held], next);
        if from == held {
            advance(&mut self.cursor, held as u32);
            return Ok(0);
        }
        let count = write_tags(&self.room[from..held], next, out, size)?;
        let left = take_out(&mut self.room, from, held, |sweep| sweep.is_of(next));
        advance(&mut self.cursor, left as u32);
        Ok(count)
    }

    // The place of a sender's row, and what the row says.
    fn known(&self, sender: BenchNo, size: Size) -> Result<(usize, Row), Refusal>
        ensures ok { IfOk result (λ known. (is_bench (benches_of size) sender.0 ≡ true) × (suc known.0 ≡ sender.0) × (known.0 < places) × (row_is known.1 ≡ rows_by self.now sender.0)) }
        ensures err { IfErr result (λ refusal. (is_bench (benches_of size) sender.0 ≡ false) × (refusal ≡ Refusal.NoSuchBench)) }
    {
        let i = TablePlace::of(sender, size)?.index;
        Ok((i, self.senders.row_at(i)))
    }

    // How many sweeps are held, by the cursor's count: no more than there is room for.
    fn held(&self) -> usize
        ensures { result ≡ min self.now.cursor.held room_words }
    {
        ROOM.min(self.cursor.held as usize)
    }
}
