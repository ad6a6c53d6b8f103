//! The tokens of integer and floating-point literals (C++, [lex.icon] and [lex.fcon]).

ghost use Rattle.std.specs.Prelude.{◌≡◌, ◌+◌, ◌≤◌, length};
ghost use Rattle.cxx_spelling.specs.Tokens.{is_hexadecimal, has_exponent, last_byte, fraction, exponent, number_kind, literal_end, number};

use crate::bytes::{
    byte_at, is_exponent_byte, is_float_byte, is_long_byte, is_sign_byte, literal_length,
};
use crate::kind::Kind;

// Whether a literal is hexadecimal: `e` is a digit of it.
fn is_hexadecimal(text: &[u8]) -> bool
    ensures { result ≡ is_hexadecimal text.now }
{
    let second = byte_at(text, 1);
    byte_at(text, 0) == b'0' && (second == b'x' || second == b'X')
}

fn has_exponent(text: &[u8]) -> bool
    ensures { result ≡ has_exponent text.now }
{
    !is_hexadecimal(text) && (text.contains(&b'e') || text.contains(&b'E'))
}

/// The last byte of a text, 0 where it has none.
pub(crate) fn last_byte(text: &[u8]) -> u8
    ensures { result ≡ last_byte text.now }
{
    byte_at(text, text.len().saturating_sub(1))
}

// How many bytes behind a text belong to it as a point and digits.
fn fraction(text: &[u8], behind: &[u8]) -> usize
    ensures value { result ≡ fraction text.now behind.now }
    ensures within { result ≤ length behind.now }
{
    match behind.split_first() {
        None => 0,
        Some((first, behind)) => {
            if *first == b'.' && !has_exponent(text) {
                literal_length(behind) + 1
            } else {
                0
            }
        }
    }
}

// How many bytes behind a text that ends with `e` belong to it as a sign and digits.
fn exponent(text: &[u8], behind: &[u8]) -> usize
    ensures value { result ≡ exponent text.now behind.now }
    ensures within { result ≤ length behind.now }
{
    match behind.split_first() {
        None => 0,
        Some((first, behind)) => {
            if is_sign_byte(*first) && has_exponent(text) && is_exponent_byte(last_byte(text)) {
                literal_length(behind) + 1
            } else {
                0
            }
        }
    }
}

// What a number is: a point or an exponent makes it a floating-point literal.
fn number_kind(text: &[u8]) -> Kind
    ensures { result ≡ number_kind text.now }
{
    let last = last_byte(text);
    if !(text.contains(&b'.') || has_exponent(text)) {
        Kind::Number
    } else if last.is_ascii_digit() || last == b'.' || is_float_byte(last) || is_long_byte(last) {
        Kind::Floating
    } else {
        Kind::Other
    }
}

// Where a literal ends that begins with so many bytes.
fn literal_end(n: usize, bytes: &[u8]) -> usize
    requires { n ≤ length bytes.now }
    ensures value { result ≡ literal_end n bytes.now }
    ensures within { result ≤ length bytes.now }
{
    let (text, behind) = bytes.split_at(n);
    let m = n + fraction(text, behind);
    let (text, behind) = bytes.split_at(m);
    m + exponent(text, behind)
}

/// A number, which begins with a digit, or with `-` before one.
pub(crate) fn number(bytes: &[u8]) -> (Kind, usize)
    ensures { result ≡ number bytes.now }
{
    match bytes.split_first() {
        None => (Kind::End, 0),
        Some((_, behind)) => {
            let length = literal_end(literal_length(behind) + 1, bytes);
            let (text, _) = bytes.split_at(length);
            (number_kind(text), length)
        }
    }
}
