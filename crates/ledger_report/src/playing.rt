// A script played on a new ledger, line by line.
ghost use Rattle.std.specs.Prelude.{◌≤◌, length};
ghost use Rattle.spelling.specs.Stored.{Stored};
ghost use Rattle.reports.specs.LedgerReport.{ledger_report_of};
ghost use Rattle.reports.specs.Reported.{longest};

use crate::answers::write_answer;
use crate::ending::write_end;
use crate::steps::play_line;
use kinds::{Size, SlotNo};
use ledger::{Ledger, ROOM};
use ledger_text::read_line;
use room::Writer;

// Plays the script and writes its report at the room's front. Answers the place behind it.
pub(crate) fn play_text(text: &[u8], room: &mut [u8], size: Size) -> usize
    requires { (length text.now ≤ longest) × (length (ledger_report_of size text.now) ≤ length room.old) }
    ensures { Stored room.old 0 (ledger_report_of size text.now) result room.new }
{
    let mut ledger = Ledger::new(SlotNo(0));
    let mut tags = [0u32; ROOM];
    let mut at = 0;
    let mut out = Writer { room, at: 0 };
    let mut lines = 0;
    let mut refused = 0;
    while let Some((line, behind)) = read_line(text, at) {
        at = behind;
        lines += 1;
        let answer = play_line(&mut ledger, &mut tags, line, size);
        refused += u32::from(answer.is_err());
        write_answer(&mut out, lines, answer, &tags);
    }
    write_end(&mut out, &ledger, lines, refused, size);
    out.at
}
