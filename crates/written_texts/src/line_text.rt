// Room for lines, which are written from their end to their front.
ghost use Rattle.std.specs.Prelude.{◌≡◌, ℕ, ◌+◌, ◌<◌, ◌≤◌, List, [], ◌∷◌, ◌++◌, length, drop, unsigned_abs};
ghost use Rattle.std.specs.Fmt.{decimal};
ghost use Rattle.exact_numbers.specs.Values.{text_of};
ghost use Rattle.exact_numbers.specs.Written.{padded, scaled_text, with_point, zeros};

use exact_numbers::{Dec, NumText};
use itoa::write_digits;
use std::marker::Model;

/// Room for lines of at most so many bytes, which are written from their end to their front and
/// need no memory beyond their own.
#[derive(Drop)]
pub struct LineText<const ROOM: usize> {
    bytes: [u8; ROOM],
    start: usize,
}

impl<const ROOM: usize> Model for LineText<ROOM> {
    ghost Value = { List ℕ };

    ghost view = { λ t. drop t.start t.bytes };

    ghost invariant = { λ t. t.start ≤ ROOM };
}

impl<const ROOM: usize> LineText<ROOM> {
    /// No line.
    pub fn new() -> Self
        ensures { result ≡ [] }
    {
        LineText {
            bytes: [0; ROOM],
            start: ROOM,
        }
    }

    /// The bytes written.
    pub fn bytes(&self) -> &[u8]
        ensures { result.now ≡ self.now }
    {
        let all = &self.bytes[..];
        &all[self.start..]
    }

    /// Takes the lines away.
    pub fn clear(&mut self)
        ensures { self.new ≡ [] }
    {
        self.start = ROOM;
    }

    /// Writes a byte in front.
    pub fn put_byte(&mut self, byte: u8)
        requires { length self.old < ROOM }
        ensures { self.new ≡ byte ∷ self.old }
    {
        self.start -= 1;
        self.bytes[self.start] = byte;
    }

    /// Writes a word in front.
    pub fn put_word(&mut self, word: &[u8])
        requires { length self.old + length word.now ≤ ROOM }
        ensures { self.new ≡ word.now ++ self.old }
    {
        let end = self.start;
        self.start = end - word.len();
        let all = &mut self.bytes[..];
        all[self.start..end].copy_from_slice(word);
    }

    /// Writes a number in front.
    pub fn put_number(&mut self, number: u64)
        requires { length self.old + length (decimal number) ≤ ROOM }
        ensures { self.new ≡ decimal number ++ self.old }
    {
        self.start = write_digits(number, &mut self.bytes, self.start);
    }

    // Writes a number in front, with a point before the last `places` of its digits.
    fn put_places(&mut self, number: u64, places: usize)
        requires places { places ≤ 38 }
        requires room { length self.old + 68 ≤ ROOM }
        ensures { self.new ≡ with_point places (padded places (decimal number)) ++ self.old }
    {
        let mut left = number;
        for _ in 0..places {
            self.put_byte(b'0' + (left % 10) as u8);
            left /= 10;
        }
        self.put_byte(b'.');
        self.put_number(left);
    }

    // Writes a number with so many zeros behind it in front.
    fn put_zeros(&mut self, number: u64, count: usize)
        requires few { count ≤ 20 }
        requires room { length self.old + 68 ≤ ROOM }
        ensures { self.new ≡ (decimal number ++ zeros count) ++ self.old }
    {
        for _ in 0..count {
            self.put_byte(b'0');
        }
        self.put_number(number);
    }

    // Writes a number times a small power of ten in front.
    fn put_scaled(&mut self, number: u64, e: i16)
        requires few { unsigned_abs e ≤ 20 }
        requires room { length self.old + 68 ≤ ROOM }
        ensures text { self.new ≡ scaled_text (decimal number) e ++ self.old }
        ensures short { length self.new ≤ length self.old + 40 }
    {
        let places = e.unsigned_abs() as usize;
        if e < 0 {
            self.put_places(number, places);
        } else {
            self.put_zeros(number, places);
        }
    }

    // Writes any decimal in front, by way of its text.
    fn put_any(&mut self, value: Dec)
        requires { length self.old + 68 ≤ ROOM }
        ensures { self.new ≡ text_of value ++ self.old }
    {
        let mut text = NumText::new();
        value.write_to(&mut text);
        self.put_word(text.bytes());
    }

    /// Writes the one spelling of a decimal in front. Few digits with a small
    /// exponent go digit by digit.
    pub fn put_dec(&mut self, value: Dec)
        requires { length self.old + 68 ≤ ROOM }
        ensures spelling { self.new ≡ text_of value ++ self.old }
        ensures short { length self.new ≤ length self.old + 60 }
    {
        let size = value.m().unsigned_abs();
        if size > u64::MAX as u128 || value.e().unsigned_abs() > 20 {
            self.put_any(value);
            return;
        }
        self.put_scaled(size as u64, value.e());
        if value.m() < 0 {
            self.put_byte(b'-');
        }
    }
}
