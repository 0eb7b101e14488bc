// The hand-out cursor, advanced in place: a thin step over a plain one.
ghost use Rattle.std.specs.Prelude.{◌≡◌, ◌≤◌};
ghost use Rattle.book.specs.Book.{last_slot};
ghost use Rattle.ledger.specs.Advancing.{advanced_of};

use crate::Cursor;
use kinds::SlotNo;

// The plain step: one slot further, with `left` sweeps held.
fn advanced(c: Cursor, left: u32) -> Cursor
    requires { c.next.0 ≤ last_slot }
    ensures { result ≡ advanced_of c left }
{
    Cursor {
        next: SlotNo(c.next.0 + 1),
        held: left,
    }
}

// The thin step: the same in place.
pub(crate) fn advance(c: &mut Cursor, left: u32)
    requires { c.old.next.0 ≤ last_slot }
    ensures { c.new ≡ advanced_of c.old left }
{
    *c = advanced(*c, left);
}
