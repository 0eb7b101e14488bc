// A text played on two tables, line by line.
ghost use Rattle.std.specs.Prelude.{◌≡◌, ◌≤◌, [], length};
ghost use Rattle.kinds.specs.Refusals.{answer_of};
ghost use Rattle.kinds.specs.Sizes.{benches_of};
ghost use Rattle.tables.specs.Runs.{run_of};
ghost use Rattle.tables.specs.Sound.{Sound};
ghost use Rattle.tables.specs.Steps.{empty_tables, refused};
ghost use Rattle.tables.specs.Meets.{Links};
ghost use Rattle.reports.specs.Reported.{longest};
ghost use Rattle.reports.specs.RunReport.{answer_to};
ghost use Rattle.run_report.specs.Parts.{Played};

use crate::answers::Answers;
use kinds::{Refusal, Size, Step, answer_number};
use rounds::step;
use run_text::read_line;
use tables::Tables;

// Plays the text from the empty tables, and keeps the answer of each line. Both are lent: returned, they would be copied, and a call would take more
// stack than include/funkenrille.h states.
pub(crate) fn play(text: &[u8], tables: &mut Tables, answers: &mut Answers, size: Size)
    requires new_run { tables.old ≡ empty_tables }
    requires no_answers { answers.old.items ≡ [] }
    requires text_len_bound { length text.now ≤ longest }
    ensures { Played size text.now tables.new.benches tables.new.logs answers.new.items }
{
    let mut at = 0;
    while let Some((line, next)) = read_line(text, at, size) {
        answers.push(answer_number(play_line(&mut *tables, line, size)));
        at = next;
    }
}

// Plays a line. A malformed one changes nothing.
fn play_line(tables: &mut Tables, line: Option<Step>, size: Size) -> Result<(), Refusal>
    requires { Sound (benches_of size) tables.old.benches tables.old.logs }
    ensures { Links (benches_of size) (refused (answer_of result) tables.new.benches tables.new.logs) (answer_to size (run_of tables.old.benches tables.old.logs) line) }
{
    let s = line.ok_or(Refusal::Malformed)?;
    step(tables, s, size)
}
