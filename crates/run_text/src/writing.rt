// A step's line written.
ghost use Rattle.std.specs.Prelude.{◌≡◌};
ghost use Rattle.kinds.specs.Sizes.{benches_of};
ghost use Rattle.spelling.specs.Spelling.{step_text, is_small, is_writable};
ghost use Rattle.room.specs.Writes.{Holds, Writes};
ghost use Rattle.spelling.specs.Storing.{sender_text, start_text};
ghost use Rattle.spelling.specs.Text.{write_line_of, room_after};

use crate::worlds;
use kinds::{BenchNo, Refusal, Size, SlotNo, Step};
use room::Writer;
use spelling::Line;

// No line is longer: a start, with two numbers of ten digits and a world of 32 benches, has fewer bytes.
const LONGEST_LINE: usize = 404;

// Whether a number is at most 99,999.
fn is_small(number: u32) -> bool
    ensures { result ≡ is_small number }
{
    number < 100000
}

// Whether a step can be written.
#[tactic(auto, unfolding(spelling::specs::Spelling::is_writable))]
fn is_writable(step: Step, size: Size) -> bool
    ensures { result ≡ is_writable (benches_of size) step }
{
    match step {
        Step::Start(bench, value, world) => {
            is_small(bench.0) && is_small(value.0) && worlds::is_world(world, size)
        }
        Step::Abstain(bench) => is_small(bench.0),
        Step::Leave(bench) => is_small(bench.0),
        Step::Fail(bench) => is_small(bench.0),
        Step::Turn(bench) => is_small(bench.0),
        Step::Arrive(bench, from) => is_small(bench.0) && is_small(from.0),
        Step::Notice(bench, from) => is_small(bench.0) && is_small(from.0),
    }
}

// Writes a key with a bench, and the sender.
fn write_sender(out: &mut Writer, key: &[u8], bench: BenchNo, from: BenchNo)
    requires { Holds out.old (sender_text key.now bench.0 from.0) }
    ensures { Writes out.old (sender_text key.now bench.0 from.0) out.new }
{
    out.put_field(key, bench.0);
    out.put_field(b" from=", from.0);
}

fn write_start(out: &mut Writer, bench: BenchNo, value: SlotNo, world: u32)
    requires { Holds out.old (start_text bench.0 value.0 world) }
    ensures { Writes out.old (start_text bench.0 value.0 world) out.new }
{
    out.put_field(b"step=start bench=", bench.0);
    out.put_field(b" value=", value.0);
    out.put_bytes(b" world=");
    worlds::write_world(out, world);
}

// Writes a step, its byte 10 left out.
fn write_step(out: &mut Writer, step: Step)
    requires { Holds out.old (step_text step) }
    ensures { Writes out.old (step_text step) out.new }
{
    match step {
        Step::Start(bench, value, world) => write_start(out, bench, value, world),
        Step::Abstain(bench) => out.put_field(b"step=abstain bench=", bench.0),
        Step::Leave(bench) => out.put_field(b"step=leave bench=", bench.0),
        Step::Fail(bench) => out.put_field(b"step=fail bench=", bench.0),
        Step::Turn(bench) => out.put_field(b"step=turn bench=", bench.0),
        Step::Arrive(bench, from) => write_sender(out, b"step=arrive bench=", bench, from),
        Step::Notice(bench, from) => write_sender(out, b"step=notice bench=", bench, from),
    }
}

// Writes a line from a place on, byte 10 at its end, and answers how many bytes it has. It is made beside the room, so that a refusal
// writes nothing there.
pub(crate) fn write_line(
    line: Line,
    room: &mut [u8],
    at: usize,
    size: Size,
) -> Result<usize, Refusal>
    ensures answer { result ≡ write_line_of (benches_of size) line room.old at }
    ensures held { room.new ≡ room_after (benches_of size) line room.old at }
{
    if !is_writable(line, size) {
        return Err(Refusal::NotWritable);
    }
    let mut bytes = [0; LONGEST_LINE];
    let mut made = Writer {
        room: &mut bytes,
        at: 0,
    };
    write_step(&mut made, line);
    made.put_bytes(b"\n");
    let mut out = Writer { room, at };
    if !out.has_room(made.at) {
        return Err(Refusal::ShortRoom);
    }
    out.put_bytes(made.written());
    Ok(made.at)
}
