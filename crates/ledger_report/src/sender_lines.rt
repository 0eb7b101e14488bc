// One line for each sender that has joined, in rising number: `sender=1 first=0 open=2 end=none`.
ghost use Rattle.kinds.specs.Sizes.{benches_of};
ghost use Rattle.room.specs.Writes.{Holds, Writes};
ghost use Rattle.senders.specs.Rows.{row_is};
ghost use Rattle.ledger.specs.Seen.{rows_by};
ghost use Rattle.reports.specs.LedgerReport.{slots_text, sender_line, sender_lines};

use kinds::{BenchNo, Size, SlotNo};
use ledger::{Ledger, Row};
use room::Writer;
use sets::benches_of;

pub(crate) fn write_senders(out: &mut Writer, ledger: &Ledger, size: Size)
    requires { Holds out.old (sender_lines (benches_of size) (rows_by ledger.now)) }
    ensures { Writes out.old (sender_lines (benches_of size) (rows_by ledger.now)) out.new }
{
    for s in 1..=benches_of(size) {
        let sender = BenchNo(s);
        write_sender(out, sender, ledger.row_of(sender));
    }
}

// A sender that has not joined has no line.
fn write_sender(out: &mut Writer, sender: BenchNo, row: Row)
    requires { Holds out.old (sender_line sender.0 (row_is row)) }
    ensures { Writes out.old (sender_line sender.0 (row_is row)) out.new }
{
    match row {
        Row::Unknown => {}
        Row::Joined { first, open } => {
            write_slots(out, sender, first, open);
            out.put_bytes(b" end=none\n");
        }
        Row::Ended { first, open, end } => {
            write_slots(out, sender, first, open);
            out.put_field(b" end=", end.0);
            out.put_bytes(b"\n");
        }
    }
}

fn write_slots(out: &mut Writer, sender: BenchNo, first: SlotNo, opened: SlotNo)
    requires { Holds out.old (slots_text sender.0 first.0 opened.0) }
    ensures { Writes out.old (slots_text sender.0 first.0 opened.0) out.new }
{
    out.put_field(b"sender=", sender.0);
    out.put_field(b" first=", first.0);
    out.put_field(b" open=", opened.0);
}
