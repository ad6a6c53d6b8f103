//! What stands around the encoded name: the prefixes of the linker and of the compiler, and the compiler's suffix.

ghost use Rattle.std.specs.Prelude.{◌≡◌, OnOk, ◌++◌};
ghost use Rattle.ada_spelling.specs.Affixes.{without_prefixes, is_refused, has_suffix, before_suffix, suffix_in_brackets};

use crate::bytes::{before_letters, shortened_by, without_front};
use std::alloc::AllocError;

/// The name without a point, which stands before a function's entry point on PowerPC, `_ada_`, which stands before the main
/// program, and `___ghost_`, which stands before what is there for proofs alone.
pub(crate) fn without_prefixes(name: &[u8]) -> &[u8]
    ensures { result.now ≡ without_prefixes name.now }
{
    without_front(
        b"___ghost_",
        without_front(b"_ada_", without_front(b".", name)),
    )
}

/// Whether a name isn't one of Ada's coding.
pub(crate) fn is_refused(name: &[u8]) -> bool
    ensures { result ≡ is_refused name.now }
{
    name.is_empty() || name.starts_with(b"_") || name.starts_with(b"<")
}

// Whether the compiler put a suffix behind the name, as `.cold`.
fn has_suffix(name: &[u8]) -> bool
    ensures { result ≡ has_suffix name.now }
{
    let stem = before_letters(name);
    stem.ends_with(b".") && stem.len() > 1
}

/// The name before the compiler's suffix, if it has one.
pub(crate) fn before_suffix(name: &[u8]) -> &[u8]
    ensures { result.now ≡ before_suffix name.now }
{
    if has_suffix(name) {
        shortened_by(1, before_letters(name))
    } else {
        name
    }
}

/// Adds the compiler's suffix of a name in brackets, if it has one.
pub(crate) fn push_suffix(text: &mut Vec<u8>, name: &[u8]) -> Result<(), AllocError>
    ensures { OnOk result (text.new.items ≡ text.old.items ++ suffix_in_brackets name.now) }
{
    if has_suffix(name) {
        let letters = &name[before_letters(name).len()..];
        text.push(b'[')?;
        text.extend_from_slice(letters)?;
        text.push(b']')?;
    }
    Ok(())
}
