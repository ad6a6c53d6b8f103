//! A name behind the scopes around it, joined by `::`.

ghost use Rattle.std.specs.Prelude.{◌≡◌, length, IfOk, min};
ghost use Rattle.name_forms.specs.Scoped.{parts, joined};

use ix_base::NoMemory;
use std::alloc::Global;

// Stands behind each component of a scope.
const SEPARATOR: &[u8] = b"::";

/// The name behind the components of its scope, as `outer::inner::name`. The path goes from the inside outwards, and a
/// member of it that gives nothing to names is None.
pub fn scoped(alloc: Global, path: &[Option<&[u8]>], name: &[u8]) -> Result<Vec<u8>, NoMemory>
    ensures { IfOk result (λ v. v.items ≡ joined (parts path.now) name.now) }
{
    let mut text = Vec::with_capacity(alloc, scoped_length(path, name))?;
    for member in path.iter().rev() {
        if let Some(component) = member {
            text.extend_from_slice(component)?;
            text.extend_from_slice(SEPARATOR)?;
        }
    }
    text.extend_from_slice(name)?;
    Ok(text)
}

/// The length of the name behind its scope, or the greatest `usize` where it is greater.
pub fn scoped_length(path: &[Option<&[u8]>], name: &[u8]) -> usize
    ensures { result ≡ min usize.MAX (length (joined (parts path.now) name.now)) }
{
    let mut length = name.len();
    for member in path {
        if let Some(component) = member {
            length = length
                .saturating_add(component.len())
                .saturating_add(SEPARATOR.len());
        }
    }
    length
}
