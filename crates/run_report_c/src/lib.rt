// The C library: a run text's report for a caller that is not written in Rattle. Crate run_report writes it; here is what C calls, and
// include/funkenrille.h says the same for C.
#![tactic(auto)]

ghost use Rattle.std.specs.Prelude.{◌≡◌};
ghost use Rattle.kinds.specs.declared.Size.TheVariants.{Sixteen};
ghost use Rattle.reports.specs.Reported.{length_for, room_after};
ghost use Rattle.reports.specs.RunReport.{run_report_of};

use run_report::report_or_zero;

// The report's length, or 0 of a refusal. No report has the length 0.
#[unsafe(no_mangle)]
pub extern "C" fn funkenrille_report(text: &[u8], room: &mut [u8]) -> usize
    ensures value { result ≡ length_for text.now (run_report_of Sixteen text.now) room.old }
    ensures room_after { room.new ≡ room_after text.now (run_report_of Sixteen text.now) room.old }
{
    report_or_zero(text, room)
}
