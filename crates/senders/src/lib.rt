// What a ledger knows of a sender, by value (`Row`) and as it is kept (`SenderRow`), and the row after a close and after an end. In table.rt
// the rows of all senders, and the set of those that have joined.

#![tactic(auto, unfolding(crate::specs::Rows::row_is, crate::specs::Kept::row_in, crate::specs::Kept::kept_of, book::specs::Book::has_joined, book::specs::Book::is_open, book::specs::Book::first_slot, book::specs::Book::open_slot, book::specs::Book::is_member, book::specs::Book::done_with,))]

ghost use Rattle.std.specs.Prelude.{◌≡◌};
ghost use Rattle.senders.specs.Slots.{slot_in};

use kinds::SlotNo;

mod table; // table.rt: the rows of all senders

pub use table::Senders;

// The last slot that is ever closed: `last_slot` of `book`.
pub const LAST_SLOT: u32 = 65534;

// What is kept of a sender that has joined.
#[derive(Clone, Copy, Debug, Default, PartialEq, Eq, PartialOrd, Ord, Hash)]
pub struct SenderRow {
    pub first: SlotNo,
    pub open: SlotNo,
    pub end: Option<SlotNo>,
}

// Nothing; its first and its open slot; these and its end.
#[derive(Clone, Copy)]
pub enum Row {
    Unknown,
    Joined {
        first: SlotNo,
        open: SlotNo,
    },
    Ended {
        first: SlotNo,
        open: SlotNo,
        end: SlotNo,
    },
}

// The slot that a number stands for: none is past the one behind the last.
fn slot_in(slot: SlotNo) -> SlotNo
    ensures { result.0 ≡ slot_in slot.0 }
{
    SlotNo(slot.0.min(LAST_SLOT + 1))
}

// The row of a sender that has joined.
impl From<SenderRow> for Row {
    ghost use Rattle.senders.specs.Rows.{row_is};
    ghost use Rattle.senders.specs.Kept.{row_in};

    ghost from_gives = { λ kept row. row_is row ≡ row_in kept };

    fn from(kept: SenderRow) -> Row {
        let first = kept.first;
        let open = slot_in(kept.open);
        match kept.end {
            None => Row::Joined { first, open },
            Some(end) => Row::Ended { first, open, end },
        }
    }
}

// What is kept of a row; a slot that it does not have is 0.
impl From<Row> for SenderRow {
    ghost use Rattle.senders.specs.Rows.{row_is};
    ghost use Rattle.senders.specs.Kept.{kept_of};

    ghost from_gives = { λ row kept. kept ≡ kept_of (row_is row) };

    fn from(row: Row) -> SenderRow {
        match row {
            Row::Unknown => SenderRow {
                first: SlotNo(0),
                open: SlotNo(0),
                end: None,
            },
            Row::Joined { first, open } => SenderRow {
                first,
                open,
                end: None,
            },
            Row::Ended { first, open, end } => SenderRow {
                first,
                open,
                end: Some(slot_in(end)),
            },
        }
    }
}

impl Row {
    ghost use Rattle.std.specs.Prelude.{suc};
    ghost use Rattle.book.specs.Book.{joined, ended, has_joined, is_open, first_slot, open_slot, is_member, done_with};
    ghost use Rattle.senders.specs.Rows.{row_is};

    pub fn has_joined(self) -> bool
        ensures { result ≡ has_joined (row_is self) }
    {
        !matches!(self, Row::Unknown)
    }

    // Joined, and not ended.
    pub fn is_open(self) -> bool
        ensures { result ≡ is_open (row_is self) }
    {
        matches!(self, Row::Joined { .. })
    }

    pub fn first_slot(self) -> SlotNo
        ensures { result.0 ≡ first_slot (row_is self) }
    {
        match self {
            Row::Unknown => SlotNo(0),
            Row::Joined { first, .. } | Row::Ended { first, .. } => first,
        }
    }

    pub fn open_slot(self) -> SlotNo
        ensures { result.0 ≡ open_slot (row_is self) }
    {
        match self {
            Row::Unknown => SlotNo(0),
            Row::Joined { open, .. } | Row::Ended { open, .. } => open,
        }
    }

    // A member of slot n: n is not below its first slot, and is below its end, if it has one.
    pub fn is_member(self, n: SlotNo) -> bool
        ensures { result ≡ is_member n.0 (row_is self) }
    {
        match self {
            Row::Unknown => false,
            Row::Joined { first, .. } => first <= n,
            Row::Ended { first, end, .. } => first <= n && n < end,
        }
    }

    // Whether the sender is no member of slot n, or has closed it.
    pub fn done_with(self, n: SlotNo) -> bool
        ensures { result ≡ done_with n.0 (row_is self) }
    {
        !self.is_member(n) || n < self.open_slot()
    }

    // The row after a close: the next slot is open.
    pub fn closed(self) -> Row
        ensures { row_is result ≡ joined (first_slot (row_is self)) (suc (slot_in (open_slot (row_is self)))) }
    {
        Row::Joined {
            first: self.first_slot(),
            open: SlotNo(slot_in(self.open_slot()).0 + 1),
        }
    }

    // The row after an end at `slot`.
    pub fn ended(self, slot: SlotNo) -> Row
        ensures { row_is result ≡ ended (first_slot (row_is self)) (open_slot (row_is self)) slot.0 }
    {
        Row::Ended {
            first: self.first_slot(),
            open: self.open_slot(),
            end: slot,
        }
    }
}
