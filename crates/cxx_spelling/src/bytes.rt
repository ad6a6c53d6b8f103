//! The bytes of names by their classes.

ghost use Rattle.std.specs.Prelude.{◌≡◌, ◌<◌, ◌≤◌, length, drop, slice_index, position, unwrap_or, not, IfSome};
ghost use Rattle.cxx_spelling.specs.Bytes.{until, is_blank, is_letter, is_word_byte, is_literal_byte, is_suffix_byte, is_exponent_byte, is_sign_byte, is_float_byte, is_long_byte, is_no_blank, ends_word, ends_literal};

/// Whether a byte is white space.
pub(crate) fn is_blank(b: u8) -> bool
    ensures { result ≡ is_blank b }
{
    b == b' ' || b == b'\t' || b == b'\n'
}

/// Whether an identifier may begin with a byte. Bytes from 128 on are parts of letters beyond ASCII.
pub(crate) fn is_letter(b: u8) -> bool
    ensures { result ≡ is_letter b }
{
    b.is_ascii_alphabetic() || b == b'_' || b == b'$' || b >= 128
}

/// Whether an identifier may go on with a byte.
pub(crate) fn is_word_byte(b: u8) -> bool
    ensures { result ≡ is_word_byte b }
{
    is_letter(b) || b.is_ascii_digit()
}

/// Whether a literal may go on with a byte.
pub(crate) fn is_literal_byte(b: u8) -> bool
    ensures { result ≡ is_literal_byte b }
{
    b.is_ascii_alphanumeric()
}

/// Whether a byte may stand in the suffix of an integer literal.
pub(crate) fn is_suffix_byte(b: u8) -> bool
    ensures { result ≡ is_suffix_byte b }
{
    b == b'l' || b == b'L' || b == b'u' || b == b'U'
}

/// Whether a byte begins an exponent.
pub(crate) fn is_exponent_byte(b: u8) -> bool
    ensures { result ≡ is_exponent_byte b }
{
    b == b'e' || b == b'E'
}

/// Whether a byte is a sign.
pub(crate) fn is_sign_byte(b: u8) -> bool
    ensures { result ≡ is_sign_byte b }
{
    b == b'+' || b == b'-'
}

/// Whether a byte is the suffix of `float`.
pub(crate) fn is_float_byte(b: u8) -> bool
    ensures { result ≡ is_float_byte b }
{
    b == b'f' || b == b'F'
}

/// Whether a byte is the suffix of `long` or of `long double`.
pub(crate) fn is_long_byte(b: u8) -> bool
    ensures { result ≡ is_long_byte b }
{
    b == b'l' || b == b'L'
}

/// The byte at a place, 0 behind the last one.
pub(crate) fn byte_at(bytes: &[u8], place: usize) -> u8
    ensures { result ≡ slice_index bytes.now place }
{
    match bytes.get(place) {
        Some(b) => *b,
        None => 0,
    }
}

// A place, or behind the last byte.
fn or_length(place: Option<usize>, bytes: &[u8]) -> usize
    requires { IfSome place (λ k. k < length bytes.now) }
    ensures value { result ≡ unwrap_or place (length bytes.now) }
    ensures within { result ≤ length bytes.now }
{
    match place {
        Some(place) => place,
        None => bytes.len(),
    }
}

fn first_no_blank(bytes: &[u8]) -> Option<usize>
    ensures value { result ≡ position is_no_blank bytes.now }
    ensures within { IfSome result (λ k. k < length bytes.now) }
{
    bytes.iter().position(|b| !is_blank(*b))
}

fn word_end(bytes: &[u8]) -> Option<usize>
    ensures value { result ≡ position ends_word bytes.now }
    ensures within { IfSome result (λ k. k < length bytes.now) }
{
    bytes.iter().position(|b| !is_word_byte(*b))
}

fn literal_end(bytes: &[u8]) -> Option<usize>
    ensures value { result ≡ position ends_literal bytes.now }
    ensures within { IfSome result (λ k. k < length bytes.now) }
{
    bytes.iter().position(|b| !is_literal_byte(*b))
}

fn first_of_suffix(literal: &[u8]) -> Option<usize>
    ensures value { result ≡ position is_suffix_byte literal.now }
    ensures within { IfSome result (λ k. k < length literal.now) }
{
    literal.iter().position(|b| is_suffix_byte(*b))
}

/// How many blanks stand in front.
pub(crate) fn blanks(bytes: &[u8]) -> usize
    ensures value { result ≡ until is_no_blank bytes.now }
    ensures within { result ≤ length bytes.now }
{
    or_length(first_no_blank(bytes), bytes)
}

/// The length of the identifier in front.
pub(crate) fn word_length(bytes: &[u8]) -> usize
    ensures value { result ≡ until ends_word bytes.now }
    ensures within { result ≤ length bytes.now }
{
    or_length(word_end(bytes), bytes)
}

/// How many bytes in front a literal may have, up to a point or a sign.
pub(crate) fn literal_length(bytes: &[u8]) -> usize
    ensures value { result ≡ until ends_literal bytes.now }
    ensures within { result ≤ length bytes.now }
{
    or_length(literal_end(bytes), bytes)
}

/// Where the suffix of an integer literal begins.
pub(crate) fn suffix_start(literal: &[u8]) -> usize
    ensures value { result ≡ until is_suffix_byte literal.now }
    ensures within { result ≤ length literal.now }
{
    or_length(first_of_suffix(literal), literal)
}

/// The bytes behind so many in front.
pub(crate) fn behind(bytes: &[u8], n: usize) -> &[u8]
    ensures { result.now ≡ drop n bytes.now }
{
    let (_, rest) = bytes.split_at(n.min(bytes.len()));
    rest
}
