// The last line of a report, and the one line that stands for a report that is refused.
ghost use Rattle.std.specs.Prelude.{◌≡◌};
ghost use Rattle.spelling.specs.Answers.{totals, refusal_of, refusal_text};
ghost use Rattle.room.specs.Writes.{Puts};

use crate::decimal::number_length;
use crate::writer::Writer;
use kinds::AnswerNo;

// What an answer adds to the lines not answered 0: 1 of a refusal, 0 of what is done.
pub fn refusal(answer: AnswerNo) -> u32
    ensures { result ≡ refusal_of answer }
{
    u32::from(answer != 0)
}

impl Writer<'_> {
    // Writes the line of totals, where the room holds it.
    pub fn put_totals(&mut self, lines: u32, refused: u32)
        ensures { Puts self.old (totals lines refused) self.new }
    {
        if self.has_room(16 + number_length(lines) + number_length(refused)) {
            self.put_field(b"lines=", lines);
            self.put_field(b" refused=", refused);
            self.put_bytes(b"\n");
        }
    }

    // Writes the line that is printed in a report's place, where the room holds it: the number of the refusal.
    pub fn put_refusal(&mut self, number: AnswerNo)
        ensures { Puts self.old (refusal_text number) self.new }
    {
        let refused = number as u32;
        if self.has_room(9 + number_length(refused)) {
            self.put_field(b"refused=", refused);
            self.put_bytes(b"\n");
        }
    }
}
