//! The codes of characters (C++, [lex.ccon]): gdb 16 writes them as numbers.

ghost use Rattle.std.specs.Prelude.{◌≡◌, ◌-◌, length, take, drop};
ghost use Rattle.cxx_spelling.specs.Characters.{escaped_code, ascii_code, character_code};

use crate::bytes::{behind, byte_at};
use crate::numerals::Base;
use crate::token::is_octal;

// What an escaped byte stands for: a control character, or itself.
fn escaped_code(b: u8) -> u8
    ensures { result ≡ escaped_code b }
{
    match b {
        b'a' => 7,
        b'b' => 8,
        b'e' => 27,
        b'f' => 12,
        b'n' => 10,
        b'r' => 13,
        b't' => 9,
        b'v' => 11,
        _ => b,
    }
}

// A code of ASCII. gdb writes those of other bytes as its host's `char` has them.
fn ascii_code(code: u8) -> Option<u64>
    ensures { result ≡ ascii_code code }
{
    if code.is_ascii() {
        Some(u64::from(code))
    } else {
        None
    }
}

// The digits of an octal escape sequence, in its quotes.
fn octal_digits(text: &[u8]) -> &[u8]
    ensures { result.now ≡ take (length text.now - 3) (drop 2 text.now) }
{
    let digits = behind(text, 2);
    let (digits, _) = digits.split_at(digits.len().saturating_sub(1));
    digits
}

/// The code of a character in its quotes.
pub(crate) fn character_code(text: &[u8]) -> Option<u64>
    ensures { result ≡ character_code text.now }
{
    let escaped = byte_at(text, 2);
    if byte_at(text, 1) != b'\\' {
        ascii_code(byte_at(text, 1))
    } else if is_octal(escaped) {
        Base::Octal.number(octal_digits(text))
    } else {
        ascii_code(escaped_code(escaped))
    }
}
