//! Full names of Ada, by both releases.

ghost use Rattle.std.specs.Prelude.{◌≡◌, ◌∷◌, reverse, IfOk};
ghost use Rattle.cxx_spelling.specs.Spelling.{spelling_bytes};
ghost use Rattle.gdb_entries.specs.Names.{ada_name};
ghost use Rattle.gdb_names.specs.Both.{AreBoth, components_by};
ghost use Rattle.gdb_names.specs.Seen.{contents};

use crate::ada::ada_name;
use crate::both::{BothComponents, BothNames};
use cxx_spelling::SpelledName;
use std::alloc::{AllocError, Global};

/// The full name of an item in a unit of Ada, by both releases. The components of its scope come from the outermost inwards and are
/// spelled already. The innermost of all these names that can be decoded has its scope in itself: what is around it gives nothing, and
/// the rest is encoded.
pub fn ada_full_name<'n>(
    alloc: Global,
    components: BothComponents<'_>,
    name: &[u8],
) -> Result<BothNames<'n>, AllocError>
    ensures { IfOk result (AreBoth (λ release. ada_name (name.now ∷ reverse (components_by release components.entry)))) }
{
    let older = ada_text(alloc, components.older, name)?;
    match components.newer {
        None => Ok(BothNames::alike(older)),
        Some(newer_components) => {
            let newer = ada_text(alloc, newer_components, name)?;
            Ok(BothNames::of(older, newer))
        }
    }
}

// The full name behind these components.
fn ada_text<'n>(
    alloc: Global,
    components: &[&[u8]],
    name: &[u8],
) -> Result<SpelledName<'n>, AllocError>
    ensures { IfOk result (λ text. spelling_bytes text ≡ ada_name (name.now ∷ reverse (contents components.now))) }
{
    Ok(SpelledName::Owned(ada_name(alloc, components, name)?))
}
