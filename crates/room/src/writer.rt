// What is written to: a room that is lent, and the place in it where the next byte goes.
ghost use Rattle.std.specs.Prelude.{◌≡◌, ◌+◌, leb, length, take};
ghost use Rattle.room.specs.Writes.{Holds, Puts, Writes};

use crate::bytes::has_room;

#[derive(Drop)]
pub struct Writer<'a> {
    pub room: &'a mut [u8],
    pub at: usize,
}

impl Writer<'_> {
    // Whether the room has so many bytes left.
    pub fn has_room(&self, count: usize) -> bool
        ensures { result ≡ leb (self.now.at + count) (length self.now.room.now) }
    {
        has_room(self.room, self.at, count)
    }

    // What stands before the place.
    pub fn written(&self) -> &[u8]
        ensures { result.now ≡ take self.now.at self.now.room.now }
    {
        &self.room[..self.at.min(self.room.len())]
    }

    pub(crate) fn store_bytes(&mut self, bytes: &[u8])
        requires { Holds self.old bytes.now }
        ensures { Writes self.old bytes.now self.new }
    {
        let end = self.at + bytes.len();
        self.room[self.at..end].copy_from_slice(bytes);
        self.at = end;
    }

    // Writes the bytes, where the room holds them all.
    pub fn put_bytes(&mut self, bytes: &[u8])
        ensures { Puts self.old bytes.now self.new }
    {
        if self.has_room(bytes.len()) {
            self.store_bytes(bytes);
        }
    }
}
