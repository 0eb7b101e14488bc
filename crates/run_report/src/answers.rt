// One line for each line of the text: its number from 1, and the answer.
ghost use Rattle.std.specs.Prelude.{◌≡◌, ◌+◌, ◌*◌, ◌≤◌, leb, length};
ghost use Rattle.room.specs.Writes.{Holds, Writes};
ghost use Rattle.kinds.specs.Sizes.{places};
ghost use Rattle.reports.specs.RunReport.{answer_line, answer_lines};

use arrayvec::ArrayVec;
use kinds::AnswerNo;
use reports::LONGEST;
use room::Writer;
use room::decimal::number_length;

// The answers of a text's lines: no text has more lines than bytes.
pub(crate) type Answers = ArrayVec<AnswerNo, LONGEST>;

// Whether the room holds the lines of the answers and n bytes behind them. No line is longer than 34 bytes, so that they are measured
// for a short room alone.
pub(crate) fn room_for(room: &[u8], answers: &Answers, n: usize) -> bool
    requires { n ≤ 67 * places + 36 }
    ensures { result ≡ leb (length (answer_lines 1 answers.now.items) + n) (length room.now) }
{
    34 * answers.len() + n <= room.len() || answers_length(answers) + n <= room.len()
}

// How many bytes the lines of the answers have.
fn answers_length(answers: &Answers) -> usize
    ensures { result ≡ length (answer_lines 1 answers.now.items) }
{
    let mut n = 0;
    for (i, &answer) in answers.as_slice().iter().enumerate() {
        n += answer_length(i as u32 + 1, answer);
    }
    n
}

fn answer_length(line: u32, answer: AnswerNo) -> usize
    ensures { result ≡ length (answer_line line answer) }
{
    14 + number_length(line) + number_length(answer as u32)
}

// Writes the lines of the answers.
pub(crate) fn write_answers(out: &mut Writer, answers: &Answers)
    requires { Holds out.old (answer_lines 1 answers.now.items) }
    ensures { Writes out.old (answer_lines 1 answers.now.items) out.new }
{
    for (i, &answer) in answers.as_slice().iter().enumerate() {
        write_answer_line(out, i as u32 + 1, answer);
    }
}

fn write_answer_line(out: &mut Writer, line: u32, answer: AnswerNo)
    requires { Holds out.old (answer_line line answer) }
    ensures { Writes out.old (answer_line line answer) out.new }
{
    out.put_answer(line, answer);
    out.put_bytes(b"\n");
}
