//! Names of Ada: decoded, and encoded as an index has them.
//!
//! A name that is decoded has its scope in itself. So names are decoded from the innermost one outwards, each once, until one
//! can be: what is around that one gives nothing.

ghost use Rattle.std.specs.Prelude.{◌≡◌, ◌∷◌, codes, reverse, IfOk};
ghost use Rattle.std.specs.List.{join_by};
ghost use Rattle.gdb_entries.specs.Names.{ada_pieces, ada_name};
ghost use Rattle.gdb_names.specs.Seen.{contents, joined_by, pieces_seen};

use crate::scope::{joined, push_joined};
use ada_spelling::{decode, encode};
use std::alloc::{AllocError, Global};

// What a scope gives to the names in it that can't be decoded.
#[derive(Drop)]
struct Pieces<'n> {
    // The innermost component that can be decoded, decoded.
    whole: Option<Vec<u8>>,
    // Those further in, as they stand.
    inner: &'n [&'n [u8]],
}

/// The name of Ada behind these components, which stand from the outermost inwards, as an index has it.
pub(crate) fn ada_name(
    alloc: Global,
    components: &[&[u8]],
    name: &[u8],
) -> Result<Vec<u8>, AllocError>
    ensures { IfOk result (λ text. text.items ≡ ada_name (name.now ∷ reverse (contents components.now))) }
{
    let text = with_points(alloc, components, name)?;
    encode(alloc, text.as_slice())
}

// The name with points, before it is encoded: decoded, or else behind the pieces of its scope.
#[tactic(auto, using(crate::proofs::AdaLaws::name_decoded, crate::proofs::AdaLaws::name_kept))]
fn with_points(alloc: Global, components: &[&[u8]], name: &[u8]) -> Result<Vec<u8>, AllocError>
    ensures { IfOk result (λ text. text.items ≡ join_by (λ piece. piece) (codes ".") (reverse (ada_pieces (name.now ∷ reverse (contents components.now))))) }
{
    match decode(alloc, name)? {
        Some(whole) => Ok(whole),
        None => behind_pieces(alloc, components, name),
    }
}

// A name that can't be decoded behind the pieces of its scope, with points between.
fn behind_pieces(alloc: Global, components: &[&[u8]], name: &[u8]) -> Result<Vec<u8>, AllocError>
    ensures { IfOk result (λ text. text.items ≡ joined_by (codes ".") (reverse (ada_pieces (reverse (contents components.now)))) name.now) }
{
    let Pieces { whole, inner } = pieces_of(alloc, components)?;
    match whole {
        Some(whole) => {
            let mut text = whole;
            text.push(b'.')?;
            push_joined(&mut text, b".", inner, name)?;
            Ok(text)
        }
        None => joined(alloc, b".", inner, name),
    }
}

// The pieces of a scope.
#[tactic(auto, using(crate::proofs::AdaLaws::decoded_last, crate::proofs::AdaLaws::kept_last, crate::proofs::AdaLaws::pieces_of_none))]
fn pieces_of<'n>(alloc: Global, components: &'n [&'n [u8]]) -> Result<Pieces<'n>, AllocError>
    ensures { IfOk result (λ pieces. pieces_seen pieces ≡ reverse (ada_pieces (reverse (contents components.now)))) }
{
    let mut at = components.len();
    while at > 0 {
        match decode(alloc, components[at - 1])? {
            Some(whole) => {
                return Ok(Pieces {
                    whole: Some(whole),
                    inner: &components[at..],
                });
            }
            None => at -= 1,
        }
    }
    Ok(Pieces {
        whole: None,
        inner: components,
    })
}
