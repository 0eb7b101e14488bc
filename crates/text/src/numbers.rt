// Numbers read, with no leading zero: of 1 to 5 digits, and tags, which have 1 to 10 and are at most 4,294,967,295.
ghost use Rattle.std.specs.Prelude.{◌≡◌, ◌≤◌, ◌<◌, ◌^◌, suc, MatchOption, IfSome};
ghost use Rattle.spelling.specs.Fields.{digit_at, number_upto, number_at, field_at};
ghost use Rattle.spelling.specs.LedgerReading.{tag_at};

use crate::bytes;
use spelling::Found;

// The value of the digit at a place.
pub fn digit_at(text: &[u8], at: usize) -> Option<u64>
    ensures { MatchOption result (10 ≤ digit_at text.now at) (λ d. (d ≡ digit_at text.now at) × (d < 10)) }
{
    let c = *text.get(at)?;
    if c.is_ascii_digit() {
        Some(u64::from(c - b'0'))
    } else {
        None
    }
}

// The number at a place, of which up to `more` digits may follow the first: none after a 0. The loop goes to the place that is answered, and
// a chain of digits would count it as well.
fn number_upto(text: &[u8], at: usize, more: usize) -> Found<u64>
    requires { more ≤ 9 }
    ensures value { result ≡ number_upto more text.now at }
    ensures short { IfSome result (λ (n, end). n < 10 ^ suc more) }
{
    let mut number = digit_at(text, at)?;
    let room = if number == 0 { 0 } else { more };
    let mut end = at + 1;
    while let Some(digit) = digit_at(text, end) {
        if room < end - at {
            return None;
        }
        number = number * 10 + digit;
        end += 1;
    }
    Some((number, end))
}

// The number at a place.
pub fn number_at(text: &[u8], at: usize) -> Found<u32>
    ensures { result ≡ number_at text.now at }
{
    let (number, end) = number_upto(text, at, 4)?;
    Some((number as u32, end))
}

// The tag at a place.
pub fn tag_at(text: &[u8], at: usize) -> Found<u32>
    ensures { result ≡ tag_at text.now at }
{
    let (tag, end) = number_upto(text, at, 9)?;
    Some((u32::try_from(tag).ok()?, end))
}

// A key at a place, and the number behind it.
#[inline(always)]
#[tactic(auto, unfolding(spelling::specs::Fields::field_at))]
pub fn field_at(text: &[u8], at: usize, key: &[u8]) -> Found<u32>
    ensures { result ≡ field_at key.now text.now at }
{
    number_at(text, bytes::behind(text, at, key)?)
}
