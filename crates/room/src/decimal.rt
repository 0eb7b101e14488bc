// Numbers written: any u32 in decimal.
ghost use Rattle.std.specs.Prelude.{◌≡◌, ◌++◌, ◌+◌, ◌%◌, ◌≤◌, leb, length};
ghost use Rattle.std.specs.List.{prefix_len};
ghost use Rattle.spelling.specs.Numbers.{digits};
ghost use Rattle.spelling.specs.Stored.{Stored};
ghost use Rattle.room.specs.Writes.{Holds, Puts, Writes};

use crate::writer::Writer;
use itoa::write_digits;

const POWERS: [u32; 9] = [
    10, 100, 1000, 10000, 100000, 1000000, 10000000, 100000000, 1000000000,
];

// How many digits a number has: one, and one more for each power of ten that it reaches.
pub fn number_length(n: u32) -> usize
    ensures { result ≡ length (digits n) }
{
    1 + powers_reached(n)
}

fn powers_reached(n: u32) -> usize
    ensures { result ≡ prefix_len (λ power. leb power n) POWERS }
{
    POWERS.iter().take_while(|power| **power <= n).count()
}

// The last digit of a number, as a byte.
pub(crate) fn last_digit(n: u32) -> u8
    ensures { result ≡ 48 + n % 10 }
{
    b'0' + (n % 10) as u8
}

// Stores n from a place on, and answers the place behind it. It is a function of its own, for a line's number and most others of two digits or
// more; it takes room and place, since a `Writer` that is handed to such a function lies in memory.
pub(crate) fn store_digits(room: &mut [u8], at: usize, n: u32) -> usize
    requires { at + length (digits n) ≤ length room.old }
    ensures { Stored room.old at (digits n) result room.new }
{
    let mut out = Writer { room, at };
    out.store_each_digit(n);
    out.at
}

impl Writer<'_> {
    // Hardly a number has more than five digits. Up to five are stored each by itself: by `itoa` an answer's line takes up to a third more time.
    #[inline(always)]
    fn store_each_digit(&mut self, n: u32)
        requires { Holds self.old (digits n) }
        ensures { Writes self.old (digits n) self.new }
    {
        match n {
            0..=9 => self.store_bytes(&[last_digit(n)]),
            10..=99 => self.store_bytes(&[last_digit(n / 10), last_digit(n)]),
            100..=999 => self.store_bytes(&[
                last_digit(n / 100),
                last_digit(n / 10),
                last_digit(n),
            ]),
            1000..=9999 => self.store_bytes(&[
                last_digit(n / 1000),
                last_digit(n / 100),
                last_digit(n / 10),
                last_digit(n),
            ]),
            10000..=99999 => self.store_bytes(&[
                last_digit(n / 10000),
                last_digit(n / 1000),
                last_digit(n / 100),
                last_digit(n / 10),
                last_digit(n),
            ]),
            _ => {
                let end = self.at + number_length(n);
                write_digits(u64::from(n), self.room, end);
                self.at = end;
            }
        }
    }

    // Most numbers of a text have one digit: that is stored without a call.
    #[inline(always)]
    pub(crate) fn store_number(&mut self, n: u32)
        requires { Holds self.old (digits n) }
        ensures { Writes self.old (digits n) self.new }
    {
        if n < 10 {
            self.room[self.at] = b'0' + n as u8;
            self.at += 1;
            return;
        }
        self.at = store_digits(self.room, self.at, n);
    }

    // The key is a constant where this is called: as part of its caller it stores words, and calls no memcpy.
    #[inline(always)]
    pub(crate) fn store_field(&mut self, key: &[u8], n: u32)
        requires { Holds self.old (key.now ++ digits n) }
        ensures { Writes self.old (key.now ++ digits n) self.new }
    {
        self.store_bytes(key);
        self.store_number(n);
    }

    // Writes n in decimal, where the room holds it.
    pub fn put_number(&mut self, n: u32)
        ensures { Puts self.old (digits n) self.new }
    {
        if self.has_room(number_length(n)) {
            self.store_number(n);
        }
    }

    // A number has at most 10 digits, so that it is measured in a short room alone.
    fn has_room_for_field(&self, key: &[u8], n: u32) -> bool
        ensures { result ≡ leb (self.now.at + length (key.now ++ digits n)) (length self.now.room.now) }
    {
        self.has_room(key.len() + 10) || self.has_room(key.len() + number_length(n))
    }

    // Writes a key and a number behind it, where the room holds both.
    pub fn put_field(&mut self, key: &[u8], n: u32)
        ensures { Puts self.old (key.now ++ digits n) self.new }
    {
        if self.has_room_for_field(key, n) {
            self.store_field(key, n);
        }
    }
}
