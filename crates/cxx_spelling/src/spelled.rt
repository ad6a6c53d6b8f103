//! The spelling of a name: what a release of gdb, 13 or 16, makes of it, or the name as it stands where the grammar refuses it.

ghost use Rattle.std.specs.Prelude.{◌≡◌, IfOk};
ghost use Rattle.cxx_spelling.specs.Spelling.{is_sign_alone, is_one_word, gdb_spelling, gdb_c_spelling, spelling_bytes, IsSpelledAs};

use crate::bytes::word_length;
use crate::release::Release;
use crate::translation::translated;
use std::alloc::{AllocError, Global};

/// The bytes of a name.
#[derive(Drop)]
pub enum SpelledName<'n> {
    /// The name as it stands.
    Lent(&'n [u8]),
    /// Another one.
    Owned(Vec<u8>),
}

// Whether a name is one of the two words that alone name a type by another name.
fn is_sign_alone(name: &[u8]) -> bool
    ensures { result ≡ is_sign_alone name.now }
{
    name == b"signed".as_slice() || name == b"unsigned".as_slice()
}

// Whether a name is one identifier, but for these two.
fn is_one_word(name: &[u8]) -> bool
    ensures { result ≡ is_one_word name.now }
{
    word_length(name) == name.len() && !is_sign_alone(name)
}

/// A component of a C++ name, without a zero byte, as a release of gdb spells it (cp_canonicalize_string of its cp-support.c). It is
/// lent where nothing changes: so are names that the grammar refuses, and those of more than 1 MiB.
#[tactic(auto, unfolding(crate::specs::Spelling::gdb_spelling))]
pub fn spelling<'n>(
    alloc: Global,
    release: Release,
    name: &'n [u8],
) -> Result<SpelledName<'n>, AllocError>
    ensures { IfOk result (IsSpelledAs (gdb_spelling release name.now) name.now) }
{
    if is_one_word(name) {
        return Ok(SpelledName::Lent(name));
    }
    match translated(alloc, release, name)? {
        None => Ok(SpelledName::Lent(name)),
        Some(text) => Ok(lent_or_owned(name, text)),
    }
}

/// A name of C as a release of gdb spells it (c_canonicalize_name of its c-lang.c): what has no blank stays, but for `signed` and
/// `unsigned`.
#[tactic(auto, unfolding(crate::specs::Spelling::gdb_c_spelling))]
pub fn c_spelling<'n>(
    alloc: Global,
    release: Release,
    name: &'n [u8],
) -> Result<SpelledName<'n>, AllocError>
    ensures { IfOk result (IsSpelledAs (gdb_c_spelling release name.now) name.now) }
{
    if name.contains(&b' ') || is_sign_alone(name) {
        spelling(alloc, release, name)
    } else {
        Ok(SpelledName::Lent(name))
    }
}

// A text, unless it is the name.
fn lent_or_owned<'n>(name: &'n [u8], text: Vec<u8>) -> SpelledName<'n>
    ensures { IsSpelledAs text.items name.now result }
{
    if text.as_slice() == name {
        SpelledName::Lent(name)
    } else {
        SpelledName::Owned(text)
    }
}

impl SpelledName<'_> {
    /// The bytes.
    pub fn bytes(&self) -> &[u8]
        ensures { result.now ≡ spelling_bytes self.now }
    {
        match self {
            SpelledName::Lent(bytes) => bytes,
            SpelledName::Owned(text) => text.as_slice(),
        }
    }
}
