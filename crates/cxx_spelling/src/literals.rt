//! Literals and their suffixes (C++, [lex.icon] and [lex.fcon]).

ghost use Rattle.std.specs.Prelude.{◌≡◌, count_by, decimal, IfOk, option_map};
ghost use Rattle.cxx_spelling.specs.Bytes.{is_long_byte, is_unsigned_byte};
ghost use Rattle.cxx_spelling.specs.Characters.{character_code};
ghost use Rattle.cxx_spelling.specs.Translation.{digits_of, integer_digits, character_digits, floating_digits, floating_type, truth_digits, suffix_form, suffix_text, operand};
ghost use Rattle.cxx_spelling.specs.Seen.{digits_bytes, seen_token};

use crate::bytes::{byte_at, is_float_byte, is_long_byte, suffix_start};
use crate::characters::character_code;
use crate::kind::Kind;
use crate::numbers::last_byte;
use crate::numerals::decimal_digits;
use crate::release::Release;
use crate::token::Token;
use std::alloc::{AllocError, Global};

/// What is written of a literal.
#[derive(Drop)]
pub(crate) enum Digits<'n> {
    /// Bytes of it.
    Lent(&'n [u8]),
    /// Others.
    Owned(Vec<u8>),
}

impl Digits<'_> {
    /// The bytes.
    pub(crate) fn bytes(&self) -> &[u8]
        ensures { result.now ≡ digits_bytes self.now }
    {
        match self {
            Digits::Lent(bytes) => bytes,
            Digits::Owned(text) => text.as_slice(),
        }
    }
}

// A literal without its suffix.
fn digits_of(literal: &[u8]) -> &[u8]
    ensures { result.now ≡ digits_of literal.now }
{
    let (digits, _) = literal.split_at(suffix_start(literal));
    digits
}

/// The suffix of a literal in its one form.
pub(crate) fn suffix_text(literal: &[u8]) -> &'static [u8]
    ensures { result.now ≡ suffix_text literal.now }
{
    let (_, letters) = literal.split_at(suffix_start(literal));
    suffix_form(count_unsigned(letters), count_long(letters))
}

fn count_unsigned(letters: &[u8]) -> usize
    ensures { result ≡ count_by is_unsigned_byte letters.now }
{
    letters
        .iter()
        .filter(|b| **b == b'u' || **b == b'U')
        .count()
}

fn count_long(letters: &[u8]) -> usize
    ensures { result ≡ count_by is_long_byte letters.now }
{
    letters
        .iter()
        .filter(|b| **b == b'l' || **b == b'L')
        .count()
}

// The one form of a suffix with so many letters `u` and `l`.
fn suffix_form(units: usize, longs: usize) -> &'static [u8]
    ensures { result.now ≡ suffix_form units longs }
{
    if longs == 0 {
        if units == 0 { b"" } else { b"u" }
    } else if longs == 1 {
        if units == 0 { b"l" } else { b"ul" }
    } else {
        if units == 0 { b"ll" } else { b"ull" }
    }
}

/// A floating-point literal without its suffix.
pub(crate) fn floating_digits(literal: &[u8]) -> &[u8]
    ensures { result.now ≡ floating_digits literal.now }
{
    let last = last_byte(literal);
    if is_float_byte(last) || is_long_byte(last) {
        let (digits, _) = literal.split_at(literal.len().saturating_sub(1));
        digits
    } else {
        literal
    }
}

/// The type of a floating-point literal, as a cast.
pub(crate) fn floating_type(literal: &[u8]) -> &'static [u8]
    ensures { result.now ≡ floating_type literal.now }
{
    let last = last_byte(literal);
    if is_float_byte(last) {
        b"(float)"
    } else if is_long_byte(last) {
        b"(long double)"
    } else {
        b"(double)"
    }
}

// `true` and `false` as numbers.
fn truth_digits(literal: &[u8]) -> &'static [u8]
    ensures { result.now ≡ truth_digits literal.now }
{
    if byte_at(literal, 0) == b't' {
        b"1"
    } else {
        b"0"
    }
}

/// An integer literal without its suffix, as a release writes it. None where it refuses the literal.
pub(crate) fn integer_digits<'n>(
    alloc: Global,
    release: Release,
    literal: &'n [u8],
) -> Result<Option<Digits<'n>>, AllocError>
    ensures { IfOk result (λ digits. option_map digits_bytes digits ≡ integer_digits release literal.now) }
{
    match release {
        Release::Gdb13 => Ok(Some(Digits::Lent(digits_of(literal)))),
        Release::Gdb16 => decimal_digits(alloc, literal),
    }
}

// The code of a character in decimal.
fn code_digits<'n>(alloc: Global, text: &[u8]) -> Result<Option<Digits<'n>>, AllocError>
    ensures { IfOk result (λ digits. option_map digits_bytes digits ≡ option_map decimal (character_code text.now)) }
{
    match character_code(text) {
        None => Ok(None),
        Some(code) => Ok(Some(Digits::Owned(format!(in alloc; "{code}")?.into_bytes()))),
    }
}

/// A character as a release writes it.
pub(crate) fn character_digits<'n>(
    alloc: Global,
    release: Release,
    text: &'n [u8],
) -> Result<Option<Digits<'n>>, AllocError>
    ensures { IfOk result (λ digits. option_map digits_bytes digits ≡ character_digits release text.now) }
{
    match release {
        Release::Gdb13 => Ok(Some(Digits::Lent(text))),
        Release::Gdb16 => code_digits(alloc, text),
    }
}

/// The literal in a cast as a release writes it: a number without its suffix.
pub(crate) fn operand<'n>(
    alloc: Global,
    release: Release,
    token: Token<'n>,
) -> Result<Option<Digits<'n>>, AllocError>
    ensures { IfOk result (λ digits. option_map digits_bytes digits ≡ operand release (seen_token token.entry)) }
{
    match token.kind {
        Kind::Character => character_digits(alloc, release, token.text),
        Kind::Truth => Ok(Some(Digits::Lent(truth_digits(token.text)))),
        Kind::Floating => Ok(Some(Digits::Lent(floating_digits(token.text)))),
        _ => integer_digits(alloc, release, token.text),
    }
}
