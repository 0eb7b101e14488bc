// Whether bytes are there.
ghost use Rattle.std.specs.Prelude.{◌≡◌, ◌+◌, leb, length};

// Whether a slice has so many bytes from a place on.
pub fn has_room(room: &[u8], at: usize, count: usize) -> bool
    ensures { result ≡ leb (at + count) (length room.now) }
{
    at <= room.len() && count <= room.len() - at
}
