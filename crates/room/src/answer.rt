// The front of an answer's line: the number of the line that is answered, and the answer.
ghost use Rattle.std.specs.Prelude.{◌≡◌, ◌++◌, ◌+◌, leb, length};
ghost use Rattle.spelling.specs.Numbers.{ascii, digits};
ghost use Rattle.spelling.specs.Answers.{answer_text};
ghost use Rattle.room.specs.Writes.{Holds, Puts, Writes};

use crate::decimal::{last_digit, number_length, store_digits};
use crate::writer::Writer;
use kinds::AnswerNo;

impl Writer<'_> {
    // Two numbers have at most 20 digits, so that they are measured in a short room alone.
    fn has_room_for_answer(&self, line: u32, answer: u32) -> bool
        ensures { result ≡ leb (self.now.at + length (answer_text line answer)) (length self.now.room.now) }
    {
        self.has_room(33) || self.has_room(13 + number_length(line) + number_length(answer))
    }

    // Stores the answer behind its key. It has hardly ever more than two digits: these are stored without a call.
    #[inline(always)]
    fn store_answer(&mut self, answer: u32)
        requires { Holds self.old (ascii " answer=" ++ digits answer) }
        ensures { Writes self.old (ascii " answer=" ++ digits answer) self.new }
    {
        self.store_bytes(b" answer=");
        match answer {
            0..=9 => self.store_bytes(&[last_digit(answer)]),
            10..=99 => self.store_bytes(&[last_digit(answer / 10), last_digit(answer)]),
            _ => self.store_number(answer),
        }
    }

    // Writes both, where the room holds them. It is part of its caller: where the writer is handed on, in memory, a line takes up to twice the time.
    // A line's number is not first tried for one digit, as other numbers are: few lines have such a number.
    #[inline(always)]
    pub fn put_answer(&mut self, line: u32, answer: AnswerNo)
        ensures { Puts self.old (answer_text line answer) self.new }
    {
        let number = answer as u32;
        if self.has_room_for_answer(line, number) {
            self.store_bytes(b"line=");
            self.at = store_digits(self.room, self.at, line);
            self.store_answer(number);
        }
    }
}
