//! The bytes of names by their classes, and texts at the two ends of a name.

ghost use Rattle.std.specs.Prelude.{◌≡◌, ◌-◌, ◌≤◌, length, slice_index};
ghost use Rattle.std.specs.List.{list_all, suffix_len};
ghost use Rattle.ada_spelling.specs.Bytes.{is_digit, is_letter, is_lower_or_digit, is_alphanumeric, last_byte, shortened_by, without_front, without_end, before_letters, before_digits, before_part, digits_in_front};

/// Whether a byte is a letter.
pub(crate) fn is_letter(b: u8) -> bool
    ensures { result ≡ is_letter b }
{
    b.is_ascii_alphabetic()
}

/// Whether all bytes are letters.
pub(crate) fn are_letters(bytes: &[u8]) -> bool
    ensures { result ≡ list_all is_letter bytes.now }
{
    bytes.iter().all(|b| is_letter(*b))
}

/// Whether a byte is a letter or a digit.
pub(crate) fn is_alphanumeric(b: u8) -> bool
    ensures { result ≡ is_alphanumeric b }
{
    b.is_ascii_alphabetic() || b.is_ascii_digit()
}

/// Whether a byte is a lower-case letter or a digit.
pub(crate) fn is_lower_or_digit(b: u8) -> bool
    ensures { result ≡ is_lower_or_digit b }
{
    b.is_ascii_lowercase() || b.is_ascii_digit()
}

/// The byte at a place, 0 behind the last one.
pub(crate) fn byte_at(name: &[u8], place: usize) -> u8
    ensures { result ≡ slice_index name.now place }
{
    match name.get(place) {
        Some(b) => *b,
        None => 0,
    }
}

/// The last byte, 0 where there is none.
pub(crate) fn last_byte(name: &[u8]) -> u8
    ensures { result ≡ last_byte name.now }
{
    byte_at(name, name.len().saturating_sub(1))
}

/// The name without so many bytes at its end.
pub(crate) fn shortened_by(n: usize, name: &[u8]) -> &[u8]
    ensures { result.now ≡ shortened_by n name.now }
{
    &name[..name.len().saturating_sub(n)]
}

/// The name without the text in front, if it stands there.
pub(crate) fn without_front<'n>(front: &[u8], name: &'n [u8]) -> &'n [u8]
    ensures { result.now ≡ without_front front.now name.now }
{
    match name.strip_prefix(front) {
        Some(rest) => rest,
        None => name,
    }
}

/// The name without the text at its end, if it and something before it stand there.
pub(crate) fn without_end<'n>(end: &[u8], name: &'n [u8]) -> &'n [u8]
    ensures { result.now ≡ without_end end.now name.now }
{
    if name.ends_with(end) && end.len() < name.len() {
        shortened_by(end.len(), name)
    } else {
        name
    }
}

// How many letters stand at the end.
fn letters_at_end(name: &[u8]) -> usize
    ensures { result ≡ suffix_len is_letter name.now }
{
    name.iter().rev().take_while(|b| is_letter(**b)).count()
}

// How many digits stand at the end.
fn digits_at_end(name: &[u8]) -> usize
    ensures { result ≡ suffix_len is_digit name.now }
{
    name.iter().rev().take_while(|b| b.is_ascii_digit()).count()
}

// How many lower-case letters and digits stand at the end.
fn part_at_end(name: &[u8]) -> usize
    ensures { result ≡ suffix_len is_lower_or_digit name.now }
{
    name.iter()
        .rev()
        .take_while(|b| is_lower_or_digit(**b))
        .count()
}

/// What stands before the letters at the end.
pub(crate) fn before_letters(name: &[u8]) -> &[u8]
    ensures { result.now ≡ before_letters name.now }
{
    shortened_by(letters_at_end(name), name)
}

/// What stands before the digits at the end.
pub(crate) fn before_digits(name: &[u8]) -> &[u8]
    ensures { result.now ≡ before_digits name.now }
{
    shortened_by(digits_at_end(name), name)
}

/// What stands before lower-case letters and digits at the end.
pub(crate) fn before_part(name: &[u8]) -> &[u8]
    ensures { result.now ≡ before_part name.now }
{
    shortened_by(part_at_end(name), name)
}

/// How many digits stand in front.
pub(crate) fn digits_in_front(bytes: &[u8]) -> usize
    ensures value { result ≡ digits_in_front bytes.now }
    ensures within { result ≤ length bytes.now }
{
    bytes.iter().take_while(|b| b.is_ascii_digit()).count()
}
