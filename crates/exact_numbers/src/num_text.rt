ghost use Rattle.std.specs.Prelude.{◌≡◌, ℕ, ◌+◌, ◌<◌, ◌≤◌, List, [], ◌∷◌, ◌++◌, length, take};
ghost use Rattle.exact_numbers.specs.Written.{zeros};

use std::marker::Model;

/// Room for the written text of a number, which needs no memory beyond its own.
#[derive(Clone, Copy)]
pub struct NumText {
    bytes: [u8; 96],
    len: usize,
}

impl Model for NumText {
    ghost use Rattle.std.specs.Prelude.{ℕ, List, length, take};
    ghost use Rattle.exact_numbers.specs.InsidePadded.{IsPadded, room_of, room_back, length_back};

    ghost Value = { List ℕ };

    ghost view = { λ t. take t.len t.bytes };

    ghost invariant = { λ t. IsPadded t.bytes t.len };

    ghost inverse = { λ text. record { bytes = room_of text; len = length text } };

    ghost inverse_ok = { λ t h i. record {
      bytes = room_back t.bytes t.len h i;
      len = length_back t.bytes t.len h i;
    } };
}

impl NumText {
    /// The empty text.
    pub fn new() -> NumText
        ensures { result ≡ [] }
    {
        NumText {
            bytes: [0; 96],
            len: 0,
        }
    }

    /// The bytes written.
    pub fn bytes(&self) -> &[u8]
        ensures { result.now ≡ self.now }
    {
        &self.bytes[..self.len]
    }

    pub(crate) fn clear(&mut self)
        ensures { self.new ≡ [] }
    {
        self.bytes = [0; 96];
        self.len = 0;
    }

    pub(crate) fn push(&mut self, b: u8)
        requires { length self.old < 96 }
        ensures { self.new ≡ self.old ++ b ∷ [] }
    {
        self.bytes[self.len] = b;
        self.len += 1;
    }

    pub(crate) fn append(&mut self, text: &[u8])
        requires { length self.old + length text.now ≤ 96 }
        ensures { self.new ≡ self.old ++ text.now }
    {
        for b in text {
            self.push(*b);
        }
    }

    pub(crate) fn append_zeros(&mut self, n: usize)
        requires { length self.old + n ≤ 96 }
        ensures { self.new ≡ self.old ++ zeros n }
    {
        for _ in 0..n {
            self.push(b'0');
        }
    }
}
