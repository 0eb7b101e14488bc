// Fixed byte strings such as key names; and where a line ends.
ghost use Rattle.std.specs.Prelude.{◌≡◌, ◌+◌, ◌==◌, ◌≤◌, drop, get_or, length};
ghost use Rattle.std.specs.Cmp.Lexicographic.{pointwise};
ghost use Rattle.std.specs.List.{position_or_len};
ghost use Rattle.spelling.specs.Fields.{behind, line_length};

use memchr::memchr;

// The bytes from a place on; none where it lies past the end.
fn rest(text: &[u8], at: usize) -> &[u8]
    ensures { result.now ≡ drop at text.now }
{
    text.get(at..).unwrap_or(b"")
}

// The place behind a key that stands at a place.
#[inline(always)]
pub fn behind(text: &[u8], at: usize, key: &[u8]) -> Option<usize>
    ensures { result ≡ behind key.now text.now at }
{
    let end = at.checked_add(key.len())?;
    let here = text.get(at..end).unwrap_or(b"");
    if same(here, key) { Some(end) } else { None }
}

// Whether two slices are equal, of which eight bytes are compared at once, then four, so that a fixed key compiles to a few words. By `==`
// or `starts_with` reading a mixed line of run text took 161 and 154 instructions, and 109 so.
#[inline(always)]
fn same(a: &[u8], b: &[u8]) -> bool
    ensures { result ≡ pointwise ◌==◌ a.now b.now }
{
    match (a.split_first_chunk::<8>(), b.split_first_chunk::<8>()) {
        (Some((x, a)), Some((y, b))) => x == y && same_few(a, b),
        _ => same_few(a, b),
    }
}

// The same without the first step.
#[inline(always)]
fn same_few(a: &[u8], b: &[u8]) -> bool
    ensures { result ≡ pointwise ◌==◌ a.now b.now }
{
    match (a.split_first_chunk::<4>(), b.split_first_chunk::<4>()) {
        (Some((x, a)), Some((y, b))) => x == y && a == b,
        _ => a == b,
    }
}

// The byte at a place, or 0 past the end.
pub fn byte_at(text: &[u8], at: usize) -> u8
    ensures { result ≡ get_or text.now at 0 }
{
    text.get(at).copied().unwrap_or(0)
}

// How many bytes of a line are looked at one by one: `memchr` is made for long lines, and takes longer to begin than these take.
const NEAR: usize = 4;

// Where the line that begins at a place ends: at byte 10 or at the text's end.
pub fn line_end(text: &[u8], from: usize) -> usize
    ensures { result ≡ from + line_length (drop from text.now) }
{
    let line = rest(text, from);
    let Some((near, far)) = line.split_first_chunk::<NEAR>() else {
        return from + ten_in(line);
    };
    let place = ten_in(near);
    if place < NEAR {
        return from + place;
    }
    from + NEAR + memchr(b'\n', far).unwrap_or(far.len())
}

// The place of byte 10, or how many bytes there are. They are looked at one by one.
#[inline(always)]
fn ten_in(bytes: &[u8]) -> usize
    ensures within { result ≤ length bytes.now }
    ensures first { result ≡ position_or_len (λ byte. byte == 10) bytes.now }
{
    bytes.iter().take_while(|byte| **byte != b'\n').count()
}
