//! The numbers that integer literals stand for (C++, [lex.icon]): gdb 16 writes them in decimal.

ghost use Rattle.std.specs.Prelude.{◌≡◌, ◌≤◌, ◌++◌, decimal, option_map, IfOk};
ghost use Rattle.std.specs.List.{list_all};
ghost use Rattle.cxx_spelling.specs.Bytes.{is_digit, is_suffix_byte};
ghost use Rattle.cxx_spelling.specs.Numerals.{radix, prefix_length, base_of, number_of, behind_sign, sign_of, in_decimal, decimal_digits};
ghost use Rattle.cxx_spelling.specs.Seen.{digits_bytes};

use crate::bytes::{behind, byte_at, is_suffix_byte, suffix_start};
use crate::literals::Digits;
use std::alloc::{AllocError, Global};

/// The base of an integer literal.
#[derive(Clone, Copy)]
pub(crate) enum Base {
    Binary,
    Octal,
    Decimal,
    Hexadecimal,
}

impl Base {
    // The base of a literal by its first two bytes.
    fn of(first: u8, second: u8) -> Base
        ensures { result ≡ base_of first second }
    {
        match (first, second) {
            (b'0', 0) => Base::Decimal,
            (b'0', b'x' | b'X') => Base::Hexadecimal,
            (b'0', b'b' | b'B') => Base::Binary,
            (b'0', _) => Base::Octal,
            _ => Base::Decimal,
        }
    }

    // How many digits it has.
    fn radix(self) -> u32
        ensures value { result ≡ radix self }
        ensures least { 2 ≤ result }
        ensures most { result ≤ 16 }
    {
        match self {
            Base::Binary => 2,
            Base::Octal => 8,
            Base::Decimal => 10,
            Base::Hexadecimal => 16,
        }
    }

    // How many bytes tell it before the first digit.
    fn prefix_length(self) -> usize
        ensures { result ≡ prefix_length self }
    {
        match self {
            Base::Binary | Base::Hexadecimal => 2,
            Base::Octal | Base::Decimal => 0,
        }
    }

    /// The number that digits of the base stand for. None where one isn't of the base, or where the number is 2^64 or more.
    pub(crate) fn number(self, digits: &[u8]) -> Option<u64>
        ensures { result ≡ number_of (radix self) digits.now }
    {
        let radix = self.radix();
        let mut value = 0u64;
        for b in digits {
            let digit = char::from(*b).to_digit(radix)?;
            value = value
                .checked_mul(u64::from(radix))?
                .checked_add(u64::from(digit))?;
        }
        Some(value)
    }
}

// A literal without its sign.
fn behind_sign(literal: &[u8]) -> &[u8]
    ensures { result.now ≡ behind_sign literal.now }
{
    match literal.split_first() {
        None => literal,
        Some((first, behind)) => { if *first == b'-' { behind } else { literal } }
    }
}

fn is_all_digits(bytes: &[u8]) -> bool
    ensures { result ≡ list_all is_digit bytes.now }
{
    bytes.iter().all(|b| b.is_ascii_digit())
}

fn is_all_suffix(bytes: &[u8]) -> bool
    ensures { result ≡ list_all is_suffix_byte bytes.now }
{
    bytes.iter().all(|b| is_suffix_byte(*b))
}

// A number in decimal, with its sign.
fn signed(alloc: Global, literal: &[u8], number: u64) -> Result<Vec<u8>, AllocError>
    ensures { IfOk result (λ text. text.items ≡ sign_of literal.now ++ decimal number) }
{
    let sign = if byte_at(literal, 0) == b'-' { "-" } else { "" };
    Ok(format!(in alloc; "{sign}{number}")?.into_bytes())
}

// A literal without its suffix, of a base, in decimal.
fn in_decimal<'n>(
    alloc: Global,
    base: Base,
    literal: &'n [u8],
) -> Result<Option<Digits<'n>>, AllocError>
    ensures { IfOk result (λ digits. option_map digits_bytes digits ≡ in_decimal base literal.now) }
{
    let unsigned = behind_sign(literal);
    match base {
        Base::Decimal => {
            if is_all_digits(unsigned) {
                Ok(Some(Digits::Lent(literal)))
            } else {
                Ok(None)
            }
        }
        _ => match base.number(behind(unsigned, base.prefix_length())) {
            None => Ok(None),
            Some(number) => Ok(Some(Digits::Owned(signed(alloc, literal, number)?))),
        },
    }
}

/// An integer literal without its suffix, in decimal. None where a byte isn't of its base or of a suffix, and where a literal of
/// another base is 2^64 or more.
pub(crate) fn decimal_digits<'n>(
    alloc: Global,
    literal: &'n [u8],
) -> Result<Option<Digits<'n>>, AllocError>
    ensures { IfOk result (λ digits. option_map digits_bytes digits ≡ decimal_digits literal.now) }
{
    let (digits, suffix) = literal.split_at(suffix_start(literal));
    if !is_all_suffix(suffix) {
        return Ok(None);
    }
    let unsigned = behind_sign(digits);
    in_decimal(
        alloc,
        Base::of(byte_at(unsigned, 0), byte_at(unsigned, 1)),
        digits,
    )
}
