// A step read where it stands in a text, in one go: what stands at its front says which step it is, and what must follow.
ghost use Rattle.std.specs.Prelude.{◌≡◌, option_map};
ghost use Rattle.kinds.specs.Sizes.{benches_of};
ghost use Rattle.spelling.specs.Numbers.{ascii};
ghost use Rattle.spelling.specs.Fields.{field_at};
ghost use Rattle.spelling.specs.Reading.{verb_at, start_at, rest_at, step_at};

use crate::worlds;
use kinds::{BenchNo, Size, SlotNo, Step};
use spelling::{Found, Verb};
use text::{bytes, numbers};

// The step's name at a place: first those that a run has most of.
#[tactic(auto, unfolding(spelling::specs::Reading::verb_at, spelling::specs::Reading::key_of))]
fn verb_at(text: &[u8], at: usize) -> Found<Verb>
    ensures { result ≡ verb_at text.now at }
{
    if let Some(next) = bytes::behind(text, at, b"arrive bench=") {
        return Some((Verb::Arrive, next));
    }
    if let Some(next) = bytes::behind(text, at, b"turn bench=") {
        return Some((Verb::Turn, next));
    }
    if let Some(next) = bytes::behind(text, at, b"notice bench=") {
        return Some((Verb::Notice, next));
    }
    if let Some(next) = bytes::behind(text, at, b"start bench=") {
        return Some((Verb::Start, next));
    }
    if let Some(next) = bytes::behind(text, at, b"abstain bench=") {
        return Some((Verb::Abstain, next));
    }
    if let Some(next) = bytes::behind(text, at, b"leave bench=") {
        return Some((Verb::Leave, next));
    }
    if let Some(next) = bytes::behind(text, at, b"fail bench=") {
        return Some((Verb::Fail, next));
    }
    None
}

// What follows the bench of a start: its value and its world.
#[tactic(auto, unfolding(spelling::specs::Reading::start_at))]
fn start_at(text: &[u8], at: usize, bench: BenchNo, size: Size) -> Found<Step>
    ensures { result ≡ start_at (benches_of size) text.now at bench.0 }
{
    let (value, at) = numbers::field_at(text, at, b" value=")?;
    let at = bytes::behind(text, at, b" world=")?;
    let (world, at) = worlds::world_at(text, at, size)?;
    Some((Step::Start(bench, SlotNo(value), world), at))
}

// What follows the bench of a step with a sender: the sender.
fn from_at(text: &[u8], at: usize) -> Found<BenchNo>
    ensures { result ≡ option_map (λ (f, end). (record { 0 = f }, end)) (field_at (ascii " from=") text.now at) }
{
    let (from, at) = numbers::field_at(text, at, b" from=")?;
    Some((BenchNo(from), at))
}

// What follows the bench of a step.
#[tactic(auto, unfolding(spelling::specs::Reading::rest_at, spelling::specs::Reading::from_at))]
fn rest_at(text: &[u8], at: usize, verb: Verb, bench: BenchNo, size: Size) -> Found<Step>
    ensures { result ≡ rest_at (benches_of size) text.now at verb bench.0 }
{
    match verb {
        Verb::Start => start_at(text, at, bench, size),
        Verb::Abstain => Some((Step::Abstain(bench), at)),
        Verb::Leave => Some((Step::Leave(bench), at)),
        Verb::Fail => Some((Step::Fail(bench), at)),
        Verb::Turn => Some((Step::Turn(bench), at)),
        Verb::Arrive => from_at(text, at).map(|(from, at)| (Step::Arrive(bench, from), at)),
        Verb::Notice => from_at(text, at).map(|(from, at)| (Step::Notice(bench, from), at)),
    }
}

// The step that is spelled from a place on.
#[tactic(auto, unfolding(spelling::specs::Reading::step_at))]
pub(crate) fn step_at(text: &[u8], at: usize, size: Size) -> Found<Step>
    ensures { result ≡ step_at (benches_of size) text.now at }
{
    let at = bytes::behind(text, at, b"step=")?;
    let (verb, at) = verb_at(text, at)?;
    let (bench, at) = numbers::number_at(text, at)?;
    rest_at(text, at, verb, BenchNo(bench), size)
}
