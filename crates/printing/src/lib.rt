// What a program does with its streams: it reads all that there is of a text, and prints the text's report. For every reader and every writer.
// What is printed is `printed` of specs/Printed.antt.

#![tactic(auto)]

ghost use Rattle.std.specs.Prelude.{◌≡◌, ◌<◌, ◌≤◌, ℕ, List, length, take, IfOk, IfSome, IsErrOf, OnOk};
ghost use Rattle.std.specs.Io.KnownBytes.{Appends, Consumes, IsAtEnd};
ghost use Rattle.reports.specs.Reported.{Reports};
ghost use Rattle.printing.specs.Printed.{printed, HeldBy};

use kinds::Refusal;
use reports::LONGEST;
use room::Writer;
use std::io::{Read, Write};
use std::{fmt, io};

// One byte more than a text may have, to see that it is too long.
pub const INPUT: usize = LONGEST + 1;

// The bytes of a refusal's line, with the most digits that a number of 8 bits has.
const REFUSAL_LINE: usize = 12;

// A kind of text and its reports, each of which a room of `ROOM` bytes holds.
pub trait Reporting<const ROOM: usize> {
    ghost report_of: { List ℕ → List ℕ };

    // Writes the text's report to the front of the room, and answers its length.
    fn report(&self, text: &[u8], room: &mut [u8; ROOM]) -> Result<usize, Refusal>
        ensures { Reports text.now (report_of text.now) room.old result room.new };

    ghost held: { HeldBy ROOM report_of };
}

// What kept the report from being printed whole.
#[derive(Clone, Copy)]
pub enum Failure {
    Input,
    Output,
}

impl fmt::Display for Failure {
    fn fmt<W: fmt::Write>(&self, f: &mut fmt::Formatter<W>) -> fmt::Result {
        match self {
            Failure::Input => write!(f, "standard input cannot be read"),
            Failure::Output => write!(f, "standard output cannot be written"),
        }
    }
}

// Prints what is to be printed of all that the reader gives. Where the input cannot be read, nothing is printed.
pub fn print_report<const ROOM: usize, P: Reporting<ROOM>, R: Read, W: Write>(
    of: &P,
    from: &mut R,
    to: &mut W,
) -> Result<(), Failure>
    ensures whole { OnOk result (IfSome (R.remaining from.old)
        (λ text. Appends (W.contents to.old) (W.contents to.new) (printed P.report_of text))) }
    ensures unread { IsErrOf result Failure.Input → to.new ≡ to.old }
{
    let mut input = [0u8; INPUT];
    let n = read_full(from, &mut input).map_err(|_| Failure::Input)?;
    print_text(of, &input[..n], to).map_err(|_| Failure::Output)
}

// Prints what is to be printed of the text.
fn print_text<const ROOM: usize, P: Reporting<ROOM>, W: Write>(
    of: &P,
    text: &[u8],
    to: &mut W,
) -> io::Result<()>
    ensures { OnOk result (Appends (W.contents to.old) (W.contents to.new) (printed P.report_of text.now)) }
{
    let mut room = [0u8; ROOM];
    match of.report(text, &mut room) {
        Ok(length) => to.write_all(&room[..length]),
        Err(refusal) => {
            let mut line = [0u8; REFUSAL_LINE];
            let mut out = Writer {
                room: &mut line,
                at: 0,
            };
            out.put_refusal(refusal.number());
            to.write_all(out.written())
        }
    }
}

// Reads until the input is full or the reader is at its end, and answers how many bytes it has got. A loop, for without a heap std fills a buffer
// by `read_exact` alone, which does not tell how much it read of a text that is shorter.
pub fn read_full<R: Read>(from: &mut R, input: &mut [u8]) -> io::Result<usize>
    ensures within { IfOk result (λ n. n ≤ length input.new) }
    ensures bytes { IfOk result (λ n. Consumes (R.remaining from.old) (R.remaining from.new) (take n input.new)) }
    ensures end { IfOk result (λ n. n < length input.new → IsAtEnd (R.remaining from.new)) }
{
    let mut done = 0;
    while done < input.len() {
        let n = from.read(&mut input[done..])?;
        if n == 0 {
            break;
        }
        done += n;
    }
    Ok(done)
}
