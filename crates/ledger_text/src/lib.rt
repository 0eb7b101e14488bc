// Ledger scripts: a line read. A script is read line by line from place 0 on. The contract cites `read_script_line_of` of crate `spelling`,
// whose proofs/LedgerTheorems.antt says what it comes to; docs/LEDGER-SCRIPT.md is the format.

#![tactic(auto)]

ghost use Rattle.std.specs.Prelude.{◌≡◌};
ghost use Rattle.spelling.specs.LedgerReading.{read_script_line_of};

use spelling::{Found, LedgerStep};
use text::lines;

mod reading; // reading.rt: a step read

// The line that begins at a place of a script, a step or none, and the place of the next; None at the end of the script.
pub fn read_line(text: &[u8], at: usize) -> Found<Option<LedgerStep>>
    ensures { result ≡ read_script_line_of text.now at }
{
    if at < text.len() {
        Some(lines::ended(text, at, reading::step_at(text, at)))
    } else {
        None
    }
}
