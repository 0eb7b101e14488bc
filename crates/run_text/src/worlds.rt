// How a world is spelled: read by world_at, written by write_world. Nothing else knows it.
ghost use Rattle.std.specs.Prelude.{◌≡◌, ◌==◌, ◌++◌, ◌+◌, ◌≤◌, length, get_or};
ghost use Rattle.kinds.specs.Sizes.{benches_of};
ghost use Rattle.spelling.specs.Spelling.{world_text, is_world};
ghost use Rattle.room.specs.Writes.{Holds, Writes};
ghost use Rattle.spelling.specs.Storing.{sep_at};
ghost use Rattle.spelling.specs.Reading.{member_at, world_at};

use kinds::Size;
use room::Writer;
use spelling::Found;
use text::{bytes, numbers};

// A member of a world at a place: a bench above `last`.
fn member_at(text: &[u8], at: usize, last: u32, size: Size) -> Found<u32>
    ensures { result ≡ member_at (benches_of size) text.now at last }
{
    let (bench, next) = numbers::number_at(text, at)?;
    if last < bench && bench <= sets::benches_of(size) {
        Some((bench, next))
    } else {
        None
    }
}

// Whether a comma stands at a place.
fn comma_at(text: &[u8], at: usize) -> bool
    ensures { result ≡ (get_or text.now at 0 == 44) }
{
    bytes::byte_at(text, at) == b','
}

// The world at a place: benches, strictly rising, joined by commas, at least one. A loop and no chain: it goes to the place that it answers.
pub(crate) fn world_at(text: &[u8], from: usize, size: Size) -> Found<u32>
    ensures { result ≡ world_at (benches_of size) text.now from }
{
    let (mut world, mut last, mut at) = (0, 0, from);
    loop {
        let (bench, next) = member_at(text, at, last, size)?;
        world += sets::only(bench as usize - 1);
        if !comma_at(text, next) {
            return Some((world, next));
        }
        last = bench;
        at = next + 1;
    }
}

// Whether a world is not empty and names only benches that there are.
#[tactic(auto, unfolding(spelling::specs::Spelling::is_world))]
pub(crate) fn is_world(world: u32, size: Size) -> bool
    ensures { result ≡ is_world (benches_of size) world }
{
    world != 0 && sets::fits(world, size)
}

// What stands before a member of a world that begins at a place: a comma, unless it is the first.
#[tactic(auto, unfolding(spelling::specs::Storing::sep_at))]
fn separator(from: usize, at: usize) -> &'static [u8]
    ensures { result.now ≡ sep_at from at }
{
    if from < at { b"," } else { b"" }
}

pub(crate) fn write_world(out: &mut Writer, world: u32)
    requires { Holds out.old (world_text world) }
    ensures { Writes out.old (world_text world) out.new }
{
    let from = out.at;
    let mut rest = world;
    for place in 0..32 {
        if rest % 2 == 1 {
            out.put_field(separator(from, out.at), place + 1);
        }
        rest /= 2;
    }
}
