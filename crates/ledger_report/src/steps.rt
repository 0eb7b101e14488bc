// A line of a script played on a ledger. The contract cites `Plays` of specs/Playing.antt.
ghost use Rattle.ledger_report.specs.Playing.{Plays};

use kinds::{Refusal, Size};
use ledger::{Ledger, ROOM};
use spelling::LedgerStep;

// Plays a line. A malformed one changes nothing. Answers how many tags a hand-out wrote, which stand at the front of the buffer afterwards;
// nothing else is written there, and other steps write none.
pub(crate) fn play_line(
    ledger: &mut Ledger,
    tags: &mut [u32; ROOM],
    line: Option<LedgerStep>,
    size: Size,
) -> Result<Option<usize>, Refusal>
    ensures { Plays size ledger.old tags.old line result ledger.new tags.new }
{
    match line.ok_or(Refusal::Malformed)? {
        LedgerStep::Join(sender, first) => ledger.join(sender, first, size).and(Ok(None)),
        LedgerStep::Sweep(sender, tag) => ledger.sweep(sender, tag, size).and(Ok(None)),
        LedgerStep::Close(sender) => ledger.close(sender, size).and(Ok(None)),
        LedgerStep::End(sender, slot) => ledger.end(sender, slot, size).and(Ok(None)),
        LedgerStep::HandOut(places) => {
            let places = ROOM.min(places as usize);
            ledger.hand_out(&mut tags[..places], size).map(Some)
        }
    }
}
