//! What the compiler puts at the end of a name: numbers, and the marks of what isn't protected and of the bodies of tasks.

ghost use Rattle.std.specs.Prelude.{◌≡◌, ◌+◌, ◌≤◌, length, codes, IfSome, option_map};
ghost use Rattle.ada_spelling.specs.Ends.{lead_length, without_digits, without_mark, place_of, cut_at, without_bodies, is_of_numbers, before_numbers, without_numbers, without_ends};

use crate::bytes::{
    before_digits, byte_at, is_lower_or_digit, last_byte, shortened_by, without_end,
};

// Stands before what the compiler says of a variable's type.
const TYPE_MARK: &[u8] = b"___";

// How many bytes lead to the digits behind a name, as in `$2`, `.5` and `__3`.
fn lead_length(stem: &[u8]) -> usize
    ensures { result ≡ lead_length stem.now }
{
    if stem.ends_with(b".") || stem.ends_with(b"$") {
        1
    } else if stem.ends_with(b"___") {
        3
    } else if stem.ends_with(b"__") {
        2
    } else {
        0
    }
}

// Overloaded subprograms have a number, and copies that the compiler makes of one.
#[tactic(auto, unfolding(crate::specs::Ends::without_digits))]
fn without_digits(name: &[u8]) -> &[u8]
    ensures { result.now ≡ without_digits name.now }
{
    let stem = before_digits(name);
    let lead = lead_length(stem);
    if stem.len() < name.len() && lead > 0 {
        shortened_by(lead, stem)
    } else {
        name
    }
}

// The N behind a subprogram of a protected object tells that it is called without the lock.
fn without_mark(name: &[u8]) -> &[u8]
    ensures { result.now ≡ without_mark name.now }
{
    let front = shortened_by(1, name);
    if name.ends_with(b"N") && is_lower_or_digit(last_byte(front)) {
        front
    } else {
        name
    }
}

// Where the first `___` begins.
#[tactic(auto, using(crate::proofs::EndLaws::place_none))]
fn type_mark(name: &[u8]) -> Option<usize>
    ensures value { result ≡ place_of (codes "___") name.now }
    ensures within { IfSome result (λ k. k + 3 ≤ length name.now) }
{
    for at in 0..name.len() {
        if name[at..].starts_with(TYPE_MARK) {
            return Some(at);
        }
    }
    None
}

// The name up to `___X`; the whole of it where nothing stands behind its first `___`, and nothing where something else does.
fn before_type_mark(name: &[u8]) -> Option<&[u8]>
    ensures { option_map (λ cut. cut.now) result ≡ cut_at name.now (place_of (codes "___") name.now) }
{
    match type_mark(name) {
        None => Some(name),
        Some(at) => {
            let behind = at + TYPE_MARK.len();
            if name.len() <= behind {
                Some(name)
            } else if name[behind] == b'X' {
                Some(&name[..at])
            } else {
                None
            }
        }
    }
}

// The name without the marks of the bodies of tasks.
fn without_bodies(name: &[u8]) -> &[u8]
    ensures { result.now ≡ without_bodies name.now }
{
    without_end(b"B", without_end(b"TB", without_end(b"TKB", name)))
}

// Whether a digit stands at a place, or a single line behind a digit.
fn is_of_numbers(name: &[u8], place: usize) -> bool
    ensures { result ≡ is_of_numbers name.now place }
{
    let b = byte_at(name, place);
    b.is_ascii_digit() || (b == b'_' && place > 0 && byte_at(name, place - 1).is_ascii_digit())
}

// What stands before the numbers at the end.
#[tactic(auto, using(crate::proofs::EndLaws::numbers_more, crate::proofs::EndLaws::numbers_here, crate::proofs::EndLaws::numbers_all))]
fn before_numbers(name: &[u8]) -> &[u8]
    ensures { result.now ≡ before_numbers name.now }
{
    let mut end = name.len();
    while 0 < end && is_of_numbers(name, end - 1) {
        end -= 1;
    }
    &name[..end]
}

// Numbers behind `__` or `$`, as those of blocks.
#[tactic(auto, unfolding(crate::specs::Ends::without_numbers))]
fn without_numbers(name: &[u8]) -> &[u8]
    ensures { result.now ≡ without_numbers name.now }
{
    let left = before_numbers(name);
    if !last_byte(name).is_ascii_digit() {
        name
    } else if left.ends_with(b"__") && left.len() > 2 {
        shortened_by(2, left)
    } else if left.ends_with(b"$") {
        shortened_by(1, left)
    } else {
        name
    }
}

/// The name without what the compiler put at its end; none where it isn't one of Ada's coding.
#[tactic(auto, unfolding(crate::specs::Ends::without_ends))]
pub(crate) fn without_ends(name: &[u8]) -> Option<&[u8]>
    ensures { option_map (λ left. left.now) result ≡ without_ends name.now }
{
    match before_type_mark(without_mark(without_digits(name))) {
        None => None,
        Some(cut) => Some(without_numbers(without_bodies(cut))),
    }
}
