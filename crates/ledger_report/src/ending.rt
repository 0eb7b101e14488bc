// What stands behind the answers' lines: the senders' lines, the cursor's and the totals'.
ghost use Rattle.std.specs.Prelude.{◌≡◌, length};
ghost use Rattle.room.specs.Writes.{Holds, Writes};
ghost use Rattle.reports.specs.LedgerReport.{cursor_line, last_lines};
ghost use Rattle.ledger.specs.Seen.{book_of};

use crate::sender_lines::write_senders;
use kinds::Size;
use ledger::{Cursor, Ledger};
use room::Writer;

pub(crate) fn write_end(out: &mut Writer, ledger: &Ledger, lines: u32, refused: u32, size: Size)
    requires held_value { ledger.now.cursor.held ≡ length (book_of ledger.now).held }
    requires lines_in_bounds { Holds out.old (last_lines size (book_of ledger.now) lines refused) }
    ensures { Writes out.old (last_lines size (book_of ledger.now) lines refused) out.new }
{
    write_senders(out, ledger, size);
    write_cursor(out, &ledger.cursor);
    out.put_totals(lines, refused);
}

// `next=1 held=0`: the next slot to hand out, and the number of sweeps held.
fn write_cursor(out: &mut Writer, cursor: &Cursor)
    requires { Holds out.old (cursor_line cursor.now.next.0 cursor.now.held) }
    ensures { Writes out.old (cursor_line cursor.now.next.0 cursor.now.held) out.new }
{
    out.put_field(b"next=", cursor.next.0);
    out.put_field(b" held=", cursor.held);
    out.put_bytes(b"\n");
}
