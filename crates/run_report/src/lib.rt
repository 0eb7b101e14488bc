// A text played and its report, for a caller that lends the room. The text is read once and the report is written once: the answers
// are kept, one byte a line, so that the room is measured before its first byte is written.
// The contracts cite crate `reports`: `run_report_of`, the report that docs/SCOPE.md wants, and `Reports`.

#![tactic(auto)]

ghost use Rattle.std.specs.Prelude.{◌≡◌};
ghost use Rattle.kinds.specs.declared.Size.TheVariants.{Sixteen};
ghost use Rattle.reports.specs.Reported.{Reports, length_for, room_after};
ghost use Rattle.reports.specs.RunReport.{run_report_of};

mod answers; // answers.rt: the answers' lines measured and written
mod benches; // benches.rt: the benches' lines
mod playing; // playing.rt: a text played
mod totals; // totals.rt: the lines not answered 0 counted

use answers::{Answers, room_for, write_answers};
use benches::write_benches;
use kinds::{PLACES, Refusal, Size};
use playing::play;
use reports::LONGEST;
use room::Writer;
use tables::Tables;
use totals::refused_in;

// Room for every report of a text that is not too long (`room_enough` of crate `reports`).
pub const ROOM: usize = 1365176;

// The bytes of what stands behind the answers: a line of at most 67 for each bench, and one of at most 36.
const REST: usize = 67 * PLACES + 36;

// Plays the text and writes its report to the front of the room. A refusal leaves the room as it was, and so does the report all
// that stands behind it.
#[tactic(auto, using(crate::proofs::Reports::long_number, crate::proofs::Reports::long_length, crate::proofs::Reports::long_room))]
pub fn report(text: &[u8], room: &mut [u8]) -> Result<usize, Refusal>
    ensures { Reports text.now (run_report_of Sixteen text.now) room.old result room.new }
{
    if LONGEST < text.len() {
        return Err(Refusal::LongText);
    }
    let mut tables = Tables::new();
    let mut answers = Answers::new();
    play(text, &mut tables, &mut answers, Size::Sixteen);
    let mut rest = [0u8; REST];
    let mut end = Writer {
        room: &mut rest,
        at: 0,
    };
    write_benches(&mut end, &tables.benches, Size::Sixteen);
    end.put_totals(answers.len() as u32, refused_in(&answers));
    if !room_for(room, &answers, end.at) {
        return Err(Refusal::ShortRoom);
    }
    let mut out = Writer { room, at: 0 };
    write_answers(&mut out, &answers);
    out.put_bytes(end.written());
    Ok(out.at)
}

// The same for C, to which crate run_report_c hands it on: the report's length, or 0 of a refusal. No report has the length 0.
pub fn report_or_zero(text: &[u8], room: &mut [u8]) -> usize
    ensures value { result ≡ length_for text.now (run_report_of Sixteen text.now) room.old }
    ensures room_after { room.new ≡ room_after text.now (run_report_of Sixteen text.now) room.old }
{
    report(text, room).unwrap_or(0)
}
