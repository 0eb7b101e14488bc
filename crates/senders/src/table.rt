// The rows of all senders, and the set of those that have joined.
ghost use Rattle.std.specs.Prelude.{◌≡◌, ◌&&◌};
ghost use Rattle.book.specs.Book.{done_with};
ghost use Rattle.senders.specs.Rows.{row_is};

use crate::{Row, SenderRow};
use kinds::{PLACES, Size, SlotNo};
use sets::{benches_of, has};

// Place i of the set and of the rows is sender i + 1; the row of one that has not joined says nothing. No row is an Option in place of the set:
// the promise of each step names the set, and a visit ends behind the last that has joined.
#[derive(Clone, Copy, Debug, Default, PartialEq, Eq, PartialOrd, Ord, Hash)]
pub struct Senders {
    pub joined: u32,
    pub rows: [SenderRow; PLACES],
}

impl Senders {
    ghost use Rattle.std.specs.Prelude.{suc};
    ghost use Rattle.book.specs.Book.{all_closed};
    ghost use Rattle.kinds.specs.Sizes.{benches_of};
    ghost use Rattle.senders.specs.Kept.{rows_of};
    ghost use Rattle.senders.specs.Nobody.{nobody};

    // Nobody has joined.
    pub fn nobody() -> Senders
        ensures { result ≡ nobody }
    {
        Senders {
            joined: 0,
            rows: [SenderRow::from(Row::Unknown); PLACES],
        }
    }

    // What is known of the sender at place i; past the table, nothing.
    pub fn row_at(&self, i: usize) -> Row
        ensures { row_is result ≡ rows_of self.now.joined self.now.rows (suc i) }
    {
        if i < PLACES && has(self.joined, i) {
            Row::from(self.rows[i])
        } else {
            Row::Unknown
        }
    }

    // Has every member of slot n closed it, and every member of slot `after` that? One visit asks of both: it ends at the first sender that
    // holds one of them up, and behind the last that has joined: `rest` is the set from the sender's place on.
    #[tactic(auto, using(crate::proofs::Going::none_left))]
    pub fn all_closed(&self, n: SlotNo, after: SlotNo, size: Size) -> bool
        ensures { result ≡ (all_closed (benches_of size) n.0 (rows_of self.now.joined self.now.rows) && all_closed (benches_of size) after.0 (rows_of self.now.joined self.now.rows)) }
    {
        let many = benches_of(size) as usize;
        let mut rest = self.joined;
        for row in &self.rows[..many] {
            if rest == 0 {
                return true;
            }
            if rest % 2 == 1 && !lets_go(Row::from(*row), n, after) {
                return false;
            }
            rest /= 2;
        }
        true
    }
}

// Whether the sender is done with both slots.
fn lets_go(row: Row, n: SlotNo, after: SlotNo) -> bool
    ensures { result ≡ (done_with n.0 (row_is row) && done_with after.0 (row_is row)) }
{
    row.done_with(n) && row.done_with(after)
}
