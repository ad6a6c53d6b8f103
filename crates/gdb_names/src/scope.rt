//! Names behind the components of their scopes.
//!
//! A name is measured without memory, then written once into room of its known length.

ghost use Rattle.std.specs.Prelude.{◌≡◌, ◌++◌, length, min, IfOk, OnOk};
ghost use Rattle.gdb_names.specs.Seen.{contents, joined_by, Joins};

use gdb_entries::{LanguageClass, separator_of};
use std::alloc::{AllocError, Global};

/// What stands behind each component. None where no scope stands before a name.
pub(crate) fn separator_behind(class: LanguageClass, components: &[&[u8]]) -> Option<&'static [u8]>
    ensures { Joins class (contents components.now) result }
{
    if components.is_empty() {
        return None;
    }
    Some(separator_of(class)?.text())
}

/// The components with the separator behind each, and the name.
pub(crate) fn joined(
    alloc: Global,
    separator: &[u8],
    components: &[&[u8]],
    name: &[u8],
) -> Result<Vec<u8>, AllocError>
    ensures { IfOk result (λ text. text.items ≡ joined_by separator.now (contents components.now) name.now) }
{
    let mut text = Vec::with_capacity(alloc, joined_length(separator, components, name))?;
    push_joined(&mut text, separator, components, name)?;
    Ok(text)
}

/// Adds them to a text.
pub(crate) fn push_joined(
    text: &mut Vec<u8>,
    separator: &[u8],
    components: &[&[u8]],
    name: &[u8],
) -> Result<(), AllocError>
    ensures { OnOk result (text.new.items ≡ text.old.items ++ joined_by separator.now (contents components.now) name.now) }
{
    for component in components {
        text.extend_from_slice(component)?;
        text.extend_from_slice(separator)?;
    }
    text.extend_from_slice(name)
}

// The length of what is joined, or the greatest `usize` where it is greater.
fn joined_length(separator: &[u8], components: &[&[u8]], name: &[u8]) -> usize
    ensures { result ≡ min usize.MAX (length (joined_by separator.now (contents components.now) name.now)) }
{
    let mut length = name.len();
    for component in components {
        length = length
            .saturating_add(component.len())
            .saturating_add(separator.len());
    }
    length
}
