//! The tokens of a name (C++, [lex.token]).

ghost use Rattle.std.specs.Prelude.{◌≡◌, ◌≤◌, length};
ghost use Rattle.cxx_spelling.specs.Tokens.{is_octal, octal, escape, character, literal_or_sign, shape, first_token};
ghost use Rattle.cxx_spelling.specs.Seen.{seen_token};

use crate::bytes::{blanks, byte_at, is_letter, word_length};
use crate::keywords::keyword;
use crate::kind::Kind;
use crate::numbers::number;
use crate::punctuation::punctuation;

/// A token, and what stands behind it.
#[derive(Clone, Copy)]
pub(crate) struct Token<'n> {
    pub(crate) kind: Kind,
    pub(crate) text: &'n [u8],
    pub(crate) rest: &'n [u8],
}

/// Whether a byte is an octal digit.
pub(crate) fn is_octal(b: u8) -> bool
    ensures { result ≡ is_octal b }
{
    b >= b'0' && b <= b'7'
}

// A character by one, two or three octal digits.
fn octal(bytes: &[u8]) -> (Kind, usize)
    ensures { result ≡ octal bytes.now }
{
    let second = byte_at(bytes, 3);
    let third = byte_at(bytes, 4);
    if second == b'\'' {
        (Kind::Character, 4)
    } else if is_octal(second) && third == b'\'' {
        (Kind::Character, 5)
    } else if is_octal(second) && is_octal(third) && byte_at(bytes, 5) == b'\'' {
        (Kind::Character, 6)
    } else {
        (Kind::Other, 1)
    }
}

// A character by an escape sequence.
fn escape(bytes: &[u8]) -> (Kind, usize)
    ensures { result ≡ escape bytes.now }
{
    let escaped = byte_at(bytes, 2);
    if is_octal(escaped) {
        octal(bytes)
    } else if escaped != b'^' && escaped != b'\n' && byte_at(bytes, 3) == b'\'' {
        (Kind::Character, 4)
    } else {
        (Kind::Other, 1)
    }
}

// A character, behind a quote.
fn character(bytes: &[u8]) -> (Kind, usize)
    ensures { result ≡ character bytes.now }
{
    let first = byte_at(bytes, 1);
    if first == b'\\' {
        escape(bytes)
    } else if first != b'\'' && byte_at(bytes, 2) == b'\'' {
        (Kind::Character, 3)
    } else {
        (Kind::Other, 1)
    }
}

// What isn't a word.
fn literal_or_sign(bytes: &[u8]) -> (Kind, usize)
    ensures { result ≡ literal_or_sign bytes.now }
{
    let first = byte_at(bytes, 0);
    if first.is_ascii_digit() || (first == b'-' && byte_at(bytes, 1).is_ascii_digit()) {
        number(bytes)
    } else if first == b'\'' {
        character(bytes)
    } else {
        punctuation(bytes)
    }
}

// What stands in front, and how many bytes it has.
fn shape(bytes: &[u8]) -> (Kind, usize)
    ensures { result ≡ shape bytes.now }
{
    if bytes.is_empty() {
        (Kind::End, 0)
    } else if is_letter(byte_at(bytes, 0)) {
        let length = word_length(bytes);
        let (word, _) = bytes.split_at(length);
        (keyword(word), length)
    } else {
        literal_or_sign(bytes)
    }
}

/// The token in front, behind any white space.
pub(crate) fn first_token(bytes: &[u8]) -> Token<'_>
    ensures { seen_token result ≡ first_token bytes.now }
{
    let (_, front) = bytes.split_at(blanks(bytes));
    let (kind, length) = shape(front);
    let (text, rest) = front.split_at(length.min(front.len()));
    Token { kind, text, rest }
}
