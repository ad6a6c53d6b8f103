//! Names spelled by the classes of languages.

ghost use Rattle.std.specs.Prelude.{IfOk};
ghost use Rattle.cxx_spelling.specs.Spelling.{IsSpelledAs};
ghost use Rattle.gdb_entries.specs.Components.{spelled};
ghost use Rattle.gdb_names.specs.Both.{AreBoth};

use crate::both::BothNames;
use cxx_spelling::{Release, SpelledName, c_spelling, spelling};
use gdb_entries::LanguageClass;
use std::alloc::{AllocError, Global};

/// A name as gdb spells it in a unit of this class: those of C and C++ anew, others as they stand. It is lent where nothing
/// changes.
pub fn spelled<'n>(
    alloc: Global,
    class: LanguageClass,
    name: &'n [u8],
) -> Result<BothNames<'n>, AllocError>
    ensures { IfOk result (AreBoth (λ release. spelled release class name.now)) }
{
    let older = spelled_by(alloc, Release::Gdb13, class, name)?;
    let newer = spelled_by(alloc, Release::Gdb16, class, name)?;
    match (&older, &newer) {
        (SpelledName::Lent(_), SpelledName::Lent(_)) => Ok(BothNames::alike(older)),
        _ => Ok(BothNames::of(older, newer)),
    }
}

// The name as one release spells it.
fn spelled_by<'n>(
    alloc: Global,
    release: Release,
    class: LanguageClass,
    name: &'n [u8],
) -> Result<SpelledName<'n>, AllocError>
    ensures { IfOk result (IsSpelledAs (spelled release class name.now) name.now) }
{
    match class {
        LanguageClass::C => c_spelling(alloc, release, name),
        LanguageClass::Cxx => spelling(alloc, release, name),
        _ => Ok(SpelledName::Lent(name)),
    }
}
