// A step read where it stands in a script, in one go: what stands at its front says which step it is, and what must follow.
ghost use Rattle.std.specs.Prelude.{◌≡◌, option_map};
ghost use Rattle.spelling.specs.Numbers.{ascii};
ghost use Rattle.spelling.specs.Fields.{field_at};
ghost use Rattle.spelling.specs.LedgerReading.{ledger_verb_at, tag_field_at, ledger_rest_at, ledger_step_at};

use kinds::{BenchNo, SlotNo};
use spelling::{Found, LedgerStep, LedgerVerb};
use text::{bytes, numbers};

// The step's name at a place: first those that a script has most of.
fn verb_at(text: &[u8], at: usize) -> Found<LedgerVerb>
    ensures { result ≡ ledger_verb_at text.now at }
{
    if let Some(next) = bytes::behind(text, at, b"sweep sender=") {
        return Some((LedgerVerb::Sweep, next));
    }
    if let Some(next) = bytes::behind(text, at, b"close sender=") {
        return Some((LedgerVerb::Close, next));
    }
    if let Some(next) = bytes::behind(text, at, b"handout room=") {
        return Some((LedgerVerb::HandOut, next));
    }
    if let Some(next) = bytes::behind(text, at, b"join sender=") {
        return Some((LedgerVerb::Join, next));
    }
    if let Some(next) = bytes::behind(text, at, b"end sender=") {
        return Some((LedgerVerb::End, next));
    }
    None
}

// The slot at a place, with its key.
fn slot_at(text: &[u8], at: usize) -> Found<SlotNo>
    ensures { result ≡ option_map (λ (n, end). (record { 0 = n }, end)) (field_at (ascii " slot=") text.now at) }
{
    let (slot, at) = numbers::field_at(text, at, b" slot=")?;
    Some((SlotNo(slot), at))
}

// The tag at a place, with its key.
#[tactic(auto, unfolding(spelling::specs::LedgerReading::tag_field_at))]
fn tag_field_at(text: &[u8], at: usize) -> Found<u32>
    ensures { result ≡ tag_field_at text.now at }
{
    numbers::tag_at(text, bytes::behind(text, at, b" tag=")?)
}

// What follows the first number of a step.
#[tactic(auto, unfolding(spelling::specs::LedgerReading::ledger_rest_at, spelling::specs::LedgerReading::slot_at, spelling::specs::LedgerReading::sweep_at))]
fn rest_at(text: &[u8], at: usize, verb: LedgerVerb, number: u32) -> Found<LedgerStep>
    ensures { result ≡ ledger_rest_at text.now at verb number }
{
    let sender = BenchNo(number);
    match verb {
        LedgerVerb::Join => slot_at(text, at).map(|(slot, at)| (
            LedgerStep::Join(sender, slot),
            at,
        )),
        LedgerVerb::Sweep => tag_field_at(text, at).map(|(tag, at)| (
            LedgerStep::Sweep(sender, tag),
            at,
        )),
        LedgerVerb::Close => Some((LedgerStep::Close(sender), at)),
        LedgerVerb::End => slot_at(text, at).map(|(slot, at)| (LedgerStep::End(sender, slot), at)),
        LedgerVerb::HandOut => Some((LedgerStep::HandOut(number), at)),
    }
}

// The step that is spelled from a place on.
#[tactic(auto, unfolding(spelling::specs::LedgerReading::ledger_step_at))]
pub(crate) fn step_at(text: &[u8], at: usize) -> Found<LedgerStep>
    ensures { result ≡ ledger_step_at text.now at }
{
    let at = bytes::behind(text, at, b"step=")?;
    let (verb, at) = verb_at(text, at)?;
    let (number, at) = numbers::number_at(text, at)?;
    rest_at(text, at, verb, number)
}
