//! The parts of a name, each of which stands behind a point in its decoded form.

ghost use Rattle.std.specs.Prelude.{◌≡◌, ◌+◌, ◌^◌, ◌<◌, ◌≤◌, length, IfOk, not, option_map};
ghost use Rattle.std.specs.List.{list_all, prefix_len};
ghost use Rattle.ada_spelling.specs.Bytes.{is_letter};
ghost use Rattle.ada_spelling.specs.Parts.{is_nested, is_nesting, nested_part, written_part, part_at, parts_of, GoesOnWithin};

use crate::bytes::{byte_at, is_alphanumeric, is_letter, last_byte};
use crate::marks::{behind_marks, goes_on};
use std::alloc::{AllocError, Global};

/// What a place of a name gives.
#[derive(Clone, Copy)]
pub(crate) enum NamePart {
    /// The name ends there.
    Ends,
    /// The name isn't one of Ada's coding.
    Refused,
    /// A byte of the decoded name, and the place at which the name goes on.
    Gives(u8, usize),
}

// Whether X stands in front, behind a letter or a digit.
fn is_nested(before: &[u8], rest: &[u8]) -> bool
    ensures { result ≡ is_nested before.now rest.now }
{
    rest.starts_with(b"X") && !before.is_empty() && is_alphanumeric(last_byte(before))
}

// Whether a byte tells of what something is nested in: a body or a declaration.
fn is_nesting(b: u8) -> bool
    ensures { result ≡ is_nesting b }
{
    b == b'b' || b == b'n'
}

fn all_nesting(bytes: &[u8]) -> bool
    ensures { result ≡ list_all is_nesting bytes.now }
{
    bytes.iter().all(|b| is_nesting(*b))
}

// X with b and n alone behind it marks what is nested in packages.
fn nested_part(rest: &[u8]) -> NamePart
    requires { 1 ≤ length rest.now }
    ensures { result ≡ nested_part rest.now }
{
    if all_nesting(&rest[1..]) {
        NamePart::Ends
    } else {
        NamePart::Refused
    }
}

// `__` is a point.
fn written_part(rest: &[u8], at: usize) -> NamePart
    requires some { 1 ≤ length rest.now }
    requires fits { at + length rest.now < 2 ^ 64 }
    ensures { result ≡ written_part rest.now at }
{
    if goes_on(rest) {
        NamePart::Gives(b'.', at + 2)
    } else {
        NamePart::Gives(byte_at(rest, 0), at + 1)
    }
}

#[tactic(auto, unfolding(crate::specs::Parts::part_at))]
fn part_at(name: &[u8], at: usize) -> NamePart
    requires { at ≤ length name.now }
    ensures value { result ≡ part_at name.now at }
    ensures within { GoesOnWithin (length name.now) result }
{
    let (before, rest) = name.split_at(at);
    if rest.is_empty() {
        NamePart::Ends
    } else if is_nested(before, rest) {
        nested_part(rest)
    } else {
        written_part(rest, at)
    }
}

// How many bytes stand before the first letter.
fn before_first_letter(name: &[u8]) -> usize
    ensures value { result ≡ prefix_len (λ b. not (is_letter b)) name.now }
    ensures within { result ≤ length name.now }
{
    name.iter().take_while(|b| !is_letter(**b)).count()
}

/// The parts of a name with points between them; none where it isn't one of Ada's coding.
#[tactic(auto, using(crate::proofs::PartLaws::parts_begin, crate::proofs::PartLaws::parts_more, crate::proofs::PartLaws::parts_end, crate::proofs::PartLaws::parts_refused, crate::proofs::PartLaws::parts_out))]
pub(crate) fn parts_of(alloc: Global, name: &[u8]) -> Result<Option<Vec<u8>>, AllocError>
    ensures { IfOk result (λ parts. option_map (λ text. text.items) parts ≡ parts_of name.now) }
{
    let mut at = before_first_letter(name);
    let mut text = Vec::with_capacity(alloc, name.len())?;
    text.extend_from_slice(&name[..at])?;
    for _given in 0..name.len() + 1 {
        match part_at(name, behind_marks(name, at)) {
            NamePart::Ends => return Ok(Some(text)),
            NamePart::Refused => return Ok(None),
            NamePart::Gives(b, next) => {
                text.push(b)?;
                at = next;
            }
        }
    }
    Ok(Some(text))
}
