// One line for each bench that is not fresh, in rising number: state, last round sent or 0, decided value or `none`.
ghost use Rattle.std.specs.Prelude.{◌≡◌, ◌+◌, ◌*◌, ◌≤◌, length};
ghost use Rattle.room.specs.Writes.{Puts, Writes};
ghost use Rattle.kinds.specs.Sizes.{benches_of};
ghost use Rattle.tables.specs.Runs.{state_of};
ghost use Rattle.reads.specs.Decisions.{decision_is};
ghost use Rattle.reports.specs.RunReport.{state_text, value_text};
ghost use Rattle.run_report.specs.Parts.{row_line, row_lines};

use bench::{ABSTAINED, DECIDED, FRESH, LEFT, RUNNING};
use kinds::{BenchNo, Size, SlotNo};
use reads::{decision_of, sent_of, state_of};
use room::Writer;
use sets::benches_of;
use tables::Benches;

// Writes the lines of the benches. None is longer than 67 bytes.
pub(crate) fn write_benches(out: &mut Writer, benches: &Benches, size: Size)
    requires { out.old.at + 67 * benches_of size ≤ length out.old.room.now }
    ensures { Writes out.old (row_lines benches.now (benches_of size)) out.new }
{
    for b in 1..=benches_of(size) {
        write_bench(out, benches, BenchNo(b));
    }
}

// A fresh bench has no line.
fn write_bench(out: &mut Writer, benches: &Benches, bench: BenchNo)
    requires { out.old.at + 67 ≤ length out.old.room.now }
    ensures { Writes out.old (row_line benches.now bench.0) out.new }
{
    let state = state_of(benches, bench);
    if state == FRESH {
        return;
    }
    let sent = sent_of(benches, bench);
    let decision = decision_of(benches, bench);
    out.put_field(b"bench=", bench.0);
    out.put_bytes(b" state=");
    out.put_bytes(state_name(state));
    out.put_field(b" round=", sent);
    out.put_bytes(b" value=");
    put_value(out, decision);
    out.put_bytes(b"\n");
}

#[tactic(auto, unfolding(tables::specs::Runs::state_of, reports::specs::RunReport::state_text), using(crate::proofs::BenchLines::above_failed))]
fn state_name(state: u32) -> &'static [u8]
    ensures { result.now ≡ state_text (state_of state) }
{
    match state {
        FRESH => b"fresh",
        RUNNING => b"running",
        DECIDED => b"decided",
        ABSTAINED => b"abstained",
        LEFT => b"left",
        _ => b"failed",
    }
}

#[tactic(auto, unfolding(reads::specs::Decisions::decision_is, reports::specs::RunReport::value_text))]
fn put_value(out: &mut Writer, decision: Option<SlotNo>)
    ensures { Puts out.old (value_text (decision_is decision)) out.new }
{
    match decision {
        None => out.put_bytes(b"none"),
        Some(value) => out.put_number(value.0),
    }
}
