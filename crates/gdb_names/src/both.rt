//! What both releases of gdb give: an index serves either.

ghost use Rattle.std.specs.Prelude.{◌≡◌, List, ℕ, IfOk};
ghost use Rattle.cxx_spelling.specs.Spelling.{spelling_bytes};
ghost use Rattle.cxx_spelling.specs.declared.release.Release.{Release as ReleaseOf};
ghost use Rattle.gdb_names.specs.Both.{AreBoth, in_turn, text_by};

use cxx_spelling::{Release, SpelledName};
use std::alloc::{AllocError, Global};

/// A name as gdb 13 and gdb 16 spell it.
#[derive(Drop)]
pub struct BothNames<'n> {
    /// As gdb 13 spells it.
    pub older: SpelledName<'n>,
    /// As gdb 16 does, where that is another text.
    pub newer: Option<SpelledName<'n>>,
}

/// The components of a scope, from the outermost inwards.
#[derive(Clone, Copy)]
pub struct BothComponents<'c> {
    /// As gdb 13 spells them.
    pub older: &'c [&'c [u8]],
    /// As gdb 16 does, where one of them is another text.
    pub newer: Option<&'c [&'c [u8]]>,
}

impl<'n> BothNames<'n> {
    /// A name that both releases spell alike.
    pub(crate) fn alike(text: SpelledName<'n>) -> BothNames<'n>
        ensures { AreBoth (λ release. spelling_bytes text.entry) result }
    {
        BothNames {
            older: text,
            newer: None,
        }
    }

    /// The names of the two releases: the newer one is dropped where it is the older one's text.
    pub(crate) fn of(older: SpelledName<'n>, newer: SpelledName<'n>) -> BothNames<'n>
        ensures { AreBoth (in_turn (spelling_bytes older.entry) (spelling_bytes newer.entry)) result }
    {
        if older.bytes() == newer.bytes() {
            return BothNames::alike(older);
        }
        BothNames {
            older,
            newer: Some(newer),
        }
    }

    /// The same names, with bytes of their own where they aren't lent.
    pub fn copied(&self, alloc: Global) -> Result<BothNames<'n>, AllocError>
        ensures { (text : ReleaseOf → List ℕ) → AreBoth text self.now → IfOk result (AreBoth text) }
    {
        let older = copy_of(alloc, &self.older)?;
        let newer = match &self.newer {
            Some(name) => Some(copy_of(alloc, name)?),
            None => None,
        };
        Ok(BothNames { older, newer })
    }

    /// The name as a release spells it.
    pub(crate) fn bytes(&self, release: Release) -> &[u8]
        ensures { result.now ≡ text_by release self.now }
    {
        match (release, &self.newer) {
            (Release::Gdb16, Some(name)) => name.bytes(),
            _ => self.older.bytes(),
        }
    }
}

// The same spelling.
fn copy_of<'n>(alloc: Global, name: &SpelledName<'n>) -> Result<SpelledName<'n>, AllocError>
    ensures { IfOk result (λ copy. spelling_bytes copy ≡ spelling_bytes name.now) }
{
    match name {
        SpelledName::Lent(bytes) => Ok(SpelledName::Lent(bytes)),
        SpelledName::Owned(text) => Ok(SpelledName::Owned(text.to_vec(alloc)?)),
    }
}
