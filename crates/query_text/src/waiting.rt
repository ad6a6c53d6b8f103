//! Pieces of text that wait to be written together.

ghost use Rattle.std.specs.Prelude.{◌≡◌, ℕ, ◌+◌, ◌-◌, ◌<◌, ◌≤◌, List, [], ◌∷◌, ◌++◌, length, false, decimal};
ghost use Rattle.std.specs.Fmt.{digit_glyph};
ghost use Rattle.index_model.specs.Texts.{hex};
ghost use Rattle.query_text.specs.Sending.{room};

use std::marker::Model;

/// How many bytes wait at most.
const ROOM: usize = 4096;

/// How many digits the greatest `u64` has in decimal.
const MOST_DIGITS: usize = 20;

/// The bytes that wait. Contracts see them as a list.
#[derive(Drop)]
pub(crate) struct Waiting {
    bytes: [u8; ROOM],
    len: usize,
}

impl Model for Waiting {
    ghost use Rattle.std.specs.Prelude.{ℕ, ◌≤◌, List, take};

    ghost Value = { List ℕ };

    ghost view = { λ w. take w.len w.bytes };

    ghost invariant = { λ w. w.len ≤ 4096 };
}

impl Waiting {
    pub(crate) fn new() -> Self
        ensures { result ≡ [] }
    {
        Waiting {
            bytes: [0; ROOM],
            len: 0,
        }
    }

    pub(crate) fn as_slice(&self) -> &[u8]
        ensures { result.now ≡ self.now }
    {
        &self.bytes[..self.len]
    }

    /// How many more bytes can wait.
    pub(crate) fn room_left(&self) -> usize
        ensures { result + length self.now ≡ room }
    {
        ROOM - self.len
    }

    pub(crate) fn clear(&mut self)
        ensures { self.new ≡ [] }
    {
        self.len = 0;
    }

    pub(crate) fn push(&mut self, piece: &[u8])
        requires { length self.old + length piece.now ≤ room }
        ensures text { self.new ≡ self.old ++ piece.now }
        ensures len { length self.new ≡ length self.old + length piece.now }
    {
        let end = self.len + piece.len();
        self.bytes[self.len..end].copy_from_slice(piece);
        self.len = end;
    }

    /// The number in decimal, of 20 digits at most.
    pub(crate) fn push_decimal(&mut self, number: u64)
        requires { length self.old + 20 ≤ room }
        ensures text { self.new ≡ self.old ++ decimal number }
        ensures most { length self.new ≤ length self.old + 20 }
    {
        let mut digits = [0; MOST_DIGITS];
        let mut start = MOST_DIGITS - 1;
        let mut rest = number;
        while rest >= 10 {
            digits[start] = digit(rest % 10);
            start -= 1;
            rest /= 10;
        }
        digits[start] = digit(rest);
        self.push(&digits[start..]);
    }

    /// The number in lower-case hexadecimal without leading zeros, of 16 digits at most.
    pub(crate) fn push_hex(&mut self, number: u64)
        requires { length self.old + 20 ≤ room }
        ensures text { self.new ≡ self.old ++ hex number }
        ensures most { length self.new ≤ length self.old + 20 }
    {
        let mut digits = [0; MOST_DIGITS];
        let mut start = MOST_DIGITS - 1;
        let mut rest = number;
        while rest >= 16 {
            digits[start] = digit(rest % 16);
            start -= 1;
            rest /= 16;
        }
        digits[start] = digit(rest);
        self.push(&digits[start..]);
    }
}

// The lower-case digit of a number below 16.
fn digit(number: u64) -> u8
    requires { number < 16 }
    ensures { result ≡ digit_glyph false number }
{
    let number = number as u8;
    if number < 10 {
        b'0' + number
    } else {
        b'a' + (number - 10)
    }
}
