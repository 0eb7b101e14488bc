// Run text: a line read and a line written. A text is read line by line from place 0 on, and written line by line, each where the
// one before ended. A world names no bench but those that there are. The contracts cite `read_line_of` and `write_line_of` of crate
// `spelling`, whose proofs/Theorems.antt says what they come to.

#![tactic(auto)]

ghost use Rattle.std.specs.Prelude.{◌≡◌};
ghost use Rattle.kinds.specs.Sizes.{benches_of};
ghost use Rattle.spelling.specs.Reading.{read_line_of};
ghost use Rattle.spelling.specs.Text.{write_line_of, room_after};

use kinds::{Refusal, Size};
use spelling::{Found, Line};
use text::lines;

mod worlds; // worlds.rt: how a world is spelled
mod reading; // reading.rt: a step read
mod writing; // writing.rt: a step's line written

// The line that begins at a place of a text, a step or none, and the place of the next; None at the end of the text.
pub fn read_line(text: &[u8], at: usize, size: Size) -> Found<Option<Line>>
    ensures { result ≡ read_line_of (benches_of size) text.now at }
{
    if at < text.len() {
        Some(lines::ended(text, at, reading::step_at(text, at, size)))
    } else {
        None
    }
}

// Writes a line, byte 10 at its end, to the front of the room, and answers how many bytes it has. A refusal leaves the room as it was,
// and so does the line all that stands behind it.
pub fn write_line(line: Line, room: &mut [u8], size: Size) -> Result<usize, Refusal>
    ensures answer { result ≡ write_line_of (benches_of size) line room.old 0 }
    ensures held { room.new ≡ room_after (benches_of size) line room.old 0 }
{
    write_line_at(line, room, 0, size)
}

// The same at any place of the room, so that a text of many lines is written line by line.
pub fn write_line_at(line: Line, room: &mut [u8], at: usize, size: Size) -> Result<usize, Refusal>
    ensures answer { result ≡ write_line_of (benches_of size) line room.old at }
    ensures held { room.new ≡ room_after (benches_of size) line room.old at }
{
    writing::write_line(line, room, at, size)
}
