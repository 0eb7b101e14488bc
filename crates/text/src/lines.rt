// A line read where it stands in its text, of whichever kind its steps are.
ghost use Rattle.std.specs.Prelude.{◌≡◌};
ghost use Rattle.spelling.specs.Fields.{next_from, ends_at, ended};

use crate::bytes;
use spelling::Found;

// Whether a line ends at a place.
fn ends_at(text: &[u8], end: usize) -> bool
    ensures { result ≡ ends_at text.now end }
{
    text.get(end).is_none_or(|c| *c == b'\n')
}

// Where a line ends, the next begins: behind byte 10, if that stands there.
#[tactic(auto, unfolding(spelling::specs::Fields::next_from))]
fn next_from(text: &[u8], end: usize) -> usize
    ensures { result ≡ next_from text.now end }
{
    if end < text.len() { end + 1 } else { end }
}

// What the line says that begins at a place, and where the next begins. `found` is the step that is spelled at its front: it is what
// the line says if the line ends behind it. Only a line that says nothing is looked at twice, the second time for its end.
#[tactic(auto, unfolding(spelling::specs::Fields::next_at))]
pub fn ended<S: Copy>(text: &[u8], at: usize, found: Found<S>) -> (Option<S>, usize)
    ensures { result ≡ ended text.now at found }
{
    match found {
        Some((step, end)) if ends_at(text, end) => (Some(step), next_from(text, end)),
        _ => (None, next_from(text, bytes::line_end(text, at))),
    }
}
