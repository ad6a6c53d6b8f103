//! What scopes put before names.

ghost use Rattle.std.specs.Prelude.{◌≡◌, [], ◌++◌, List, ℕ, IfOk};
ghost use Rattle.cxx_spelling.specs.Spelling.{spelling_bytes};
ghost use Rattle.cxx_spelling.specs.declared.release.Release.{Release as ReleaseOf};
ghost use Rattle.gdb_entries.specs.Components.{behind_scope};
ghost use Rattle.gdb_names.specs.Both.{AreBoth, components_by, text_by};
ghost use Rattle.gdb_names.specs.Fronts.{front_by};
ghost use Rattle.gdb_names.specs.Seen.{contents};

use crate::both::{BothComponents, BothNames};
use crate::scope::{joined, separator_behind};
use cxx_spelling::{Release, SpelledName};
use gdb_entries::LanguageClass;
use std::alloc::{AllocError, Global};

/// What a scope puts before each name in it, but in Ada, where a name may have its scope in itself.
#[derive(Drop)]
pub struct BothFronts {
    /// As gdb 13 spells it.
    pub older: Vec<u8>,
    /// As gdb 16 does, where one of the components is another text.
    pub newer: Option<Vec<u8>>,
}

impl BothFronts {
    /// That of the scope with these components, which are spelled already, in a unit of this class.
    pub fn of(
        alloc: Global,
        class: LanguageClass,
        components: BothComponents<'_>,
    ) -> Result<BothFronts, AllocError>
        ensures { IfOk result (λ front. (release : ReleaseOf) → front_by release front ≡ behind_scope class (components_by release components.entry) []) }
    {
        let older = front_of(alloc, class, components.older)?;
        let newer = match components.newer {
            Some(newer) => Some(front_of(alloc, class, newer)?),
            None => None,
        };
        Ok(BothFronts { older, newer })
    }

    /// A name that is spelled already, behind it.
    pub fn before<'n>(
        &self,
        alloc: Global,
        name: &BothNames<'_>,
    ) -> Result<BothNames<'n>, AllocError>
        ensures { (text : ReleaseOf → List ℕ) → AreBoth text name.now → IfOk result (AreBoth (λ release. front_by release self.now ++ text release)) }
    {
        let older = self.before_text(alloc, name, Release::Gdb13)?;
        if self.newer.is_none() && name.newer.is_none() {
            return Ok(BothNames::alike(older));
        }
        let newer = self.before_text(alloc, name, Release::Gdb16)?;
        Ok(BothNames::of(older, newer))
    }

    // The text of one release.
    fn before_text<'n>(
        &self,
        alloc: Global,
        name: &BothNames<'_>,
        release: Release,
    ) -> Result<SpelledName<'n>, AllocError>
        ensures { IfOk result (λ text. spelling_bytes text ≡ front_by release self.now ++ text_by release name.now) }
    {
        let front = self.bytes(release);
        let name = name.bytes(release);
        let mut text = Vec::with_capacity(alloc, front.len().saturating_add(name.len()))?;
        text.extend_from_slice(front)?;
        text.extend_from_slice(name)?;
        Ok(SpelledName::Owned(text))
    }

    // As a release spells it.
    fn bytes(&self, release: Release) -> &[u8]
        ensures { result.now ≡ front_by release self.now }
    {
        match (release, &self.newer) {
            (Release::Gdb16, Some(text)) => text.as_slice(),
            _ => self.older.as_slice(),
        }
    }
}

// What these components put before a name.
fn front_of(
    alloc: Global,
    class: LanguageClass,
    components: &[&[u8]],
) -> Result<Vec<u8>, AllocError>
    ensures { IfOk result (λ front. front.items ≡ behind_scope class (contents components.now) []) }
{
    match separator_behind(class, components) {
        Some(separator) => joined(alloc, separator, components, &[]),
        None => Ok(Vec::new(alloc)),
    }
}
