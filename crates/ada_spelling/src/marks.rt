//! The marks that the compiler puts between the parts of a name: of tasks and their entries, blocks and protected subprograms.

ghost use Rattle.std.specs.Prelude.{◌≡◌, ◌+◌, ◌≤◌, length, IsTrue};
ghost use Rattle.ada_spelling.specs.Marks.{task_length, goes_on, block_length, ends_entry, entry_length, ends_with_part, protected_length, behind_marks};

use crate::bytes::{before_part, byte_at, digits_in_front};

// `TK` before `__`: what is in a task.
fn task_length(rest: &[u8]) -> usize
    ensures value { result ≡ task_length rest.now }
    ensures within { result ≤ length rest.now }
{
    if rest.starts_with(b"TK__") && rest.len() > 4 {
        2
    } else {
        0
    }
}

/// Whether `__` stands in front, and something behind it.
pub(crate) fn goes_on(rest: &[u8]) -> bool
    ensures { result ≡ goes_on rest.now }
{
    rest.starts_with(b"__") && rest.len() > 2
}

// `__B_1` before `__`: what is in a block.
fn block_length(rest: &[u8]) -> usize
    ensures value { result ≡ block_length rest.now }
    ensures within { result ≤ length rest.now }
{
    if !rest.starts_with(b"__B_") {
        return 0;
    }
    let numbered = &rest[4..];
    let digits = digits_in_front(numbered);
    if digits > 0 && goes_on(&numbered[digits..]) {
        4 + digits
    } else {
        0
    }
}

// Whether `b` or `s` stands in front, alone or before `_`.
#[tactic(auto, unfolding(crate::specs::Marks::ends_entry))]
fn ends_entry(rest: &[u8]) -> bool
    ensures value { result ≡ ends_entry rest.now }
    ensures some { IsTrue result → 1 ≤ length rest.now }
{
    (rest.starts_with(b"b") || rest.starts_with(b"s"))
        && (rest.len() == 1 || byte_at(rest, 1) == b'_')
}

// `_E1b` and `_E1s`: the body and the barrier of a task's entry.
fn entry_length(rest: &[u8]) -> usize
    ensures value { result ≡ entry_length rest.now }
    ensures within { result ≤ length rest.now }
{
    if !rest.starts_with(b"_E") {
        return 0;
    }
    let numbered = &rest[2..];
    let digits = digits_in_front(numbered);
    if digits > 0 && ends_entry(&numbered[digits..]) {
        3 + digits
    } else {
        0
    }
}

// Whether lower-case letters and digits alone stand at the end, up to `__` or the beginning.
fn ends_with_part(before: &[u8]) -> bool
    ensures { result ≡ ends_with_part before.now }
{
    let outer = before_part(before);
    outer.is_empty() || outer.ends_with(b"__")
}

// `N` before `__`: what is in a protected subprogram.
fn protected_length(before: &[u8], rest: &[u8]) -> usize
    ensures value { result ≡ protected_length before.now rest.now }
    ensures within { result ≤ length rest.now }
{
    if rest.starts_with(b"N__") && ends_with_part(before) {
        1
    } else {
        0
    }
}

/// The place behind the marks at a place of the name.
#[tactic(auto, unfolding(crate::specs::Marks::behind_marks))]
pub(crate) fn behind_marks(name: &[u8], at: usize) -> usize
    requires { at ≤ length name.now }
    ensures value { result ≡ behind_marks name.now at }
    ensures within { result ≤ length name.now }
{
    let task = at + task_length(&name[at..]);
    let block = task + block_length(&name[task..]);
    let entry = block + entry_length(&name[block..]);
    let (before, rest) = name.split_at(entry);
    entry + protected_length(before, rest)
}
