// Plays the ledger script on standard input and prints its report to standard output: docs/LEDGER-SCRIPT.md. Of a text that is too long it
// prints the refusal alone. Where the input cannot be read to its end, or the report not be written whole, it says so on standard error. Its
// status is 0 even then; the command ./funkenrille gives another.
#![tactic(auto)]

ghost use Rattle.std.specs.Prelude.{◌≡◌, IfSome, IsErrOf, OnOk};
ghost use Rattle.std.specs.Io.KnownBytes.{Appends};
ghost use Rattle.kinds.specs.declared.Size.TheVariants.{Sixteen};
ghost use Rattle.reports.specs.LedgerReport.{ledger_report_of};
ghost use Rattle.printing.specs.Printed.{printed};

use kinds::Refusal;
use ledger_report::{ROOM, report};
use printing::{Failure, Reporting, print_report};
use std::io::{Read, Write};

fn main(rt: HostRuntime) {
    if let Err(failure) = run(&mut rt.stdin(), &mut rt.stdout()) {
        let _ = eprintln!(rt; "ledger_run: {failure}");
    }
}

// A ledger script, and its report.
struct LedgerScript;

impl Reporting<ROOM> for LedgerScript {
    ghost use Rattle.ledger_run.specs.Held.{held};

    ghost report_of = { ledger_report_of Sixteen };

    ghost held = { held };

    fn report(&self, text: &[u8], room: &mut [u8; ROOM]) -> Result<usize, Refusal> {
        report(text, room)
    }
}

// Prints what is to be printed of all that the reader gives. Where the input cannot be read, nothing is printed.
pub fn run<R: Read, W: Write>(from: &mut R, to: &mut W) -> Result<(), Failure>
    ensures whole { OnOk result (IfSome (R.remaining from.old)
        (λ text. Appends (W.contents to.old) (W.contents to.new) (printed (ledger_report_of Sixteen) text))) }
    ensures unread { IsErrOf result Failure.Input → to.new ≡ to.old }
{
    print_report(&LedgerScript, from, to)
}
