//! The decoded form of a name.

ghost use Rattle.std.specs.Prelude.{◌≡◌, ◌++◌, IfOk, option_map, option_and_then};
ghost use Rattle.ada_spelling.specs.Affixes.{before_suffix, suffix_in_brackets};
ghost use Rattle.ada_spelling.specs.Ends.{without_ends};
ghost use Rattle.ada_spelling.specs.Parts.{parts_of};
ghost use Rattle.ada_spelling.specs.AdaNames.{decoded, unless_empty};

use crate::affixes::{before_suffix, is_refused, push_suffix, without_prefixes};
use crate::ends::without_ends;
use crate::parts::parts_of;
use std::alloc::{AllocError, Global};

// The decoded name without its suffix.
fn without_suffix(alloc: Global, whole: &[u8]) -> Result<Option<Vec<u8>>, AllocError>
    ensures { IfOk result (λ parts. option_map (λ text. text.items) parts ≡ option_and_then parts_of (without_ends (before_suffix whole.now))) }
{
    match without_ends(before_suffix(whole)) {
        None => Ok(None),
        Some(name) => parts_of(alloc, name),
    }
}

// The decoded name with the suffix that the whole name has, unless nothing is there.
fn with_suffix(text: Vec<u8>, whole: &[u8]) -> Result<Option<Vec<u8>>, AllocError>
    ensures { IfOk result (λ name. option_map (λ bytes. bytes.items) name ≡ unless_empty (text.items ++ suffix_in_brackets whole.now)) }
{
    let mut text = text;
    push_suffix(&mut text, whole)?;
    if text.is_empty() {
        Ok(None)
    } else {
        Ok(Some(text))
    }
}

/// The decoded form of a name, as `pkg.proc` for `pkg__proc__2` (ada_decode of gdb's ada-lang.c, without operators and wide
/// characters). None where it isn't one of Ada's coding.
#[tactic(auto, unfolding(crate::specs::AdaNames::decoded))]
pub fn decode(alloc: Global, name: &[u8]) -> Result<Option<Vec<u8>>, AllocError>
    ensures { IfOk result (λ text. option_map (λ bytes. bytes.items) text ≡ decoded name.now) }
{
    let whole = without_prefixes(name);
    if is_refused(whole) {
        return Ok(None);
    }
    match without_suffix(alloc, whole)? {
        None => Ok(None),
        Some(text) => with_suffix(text, whole),
    }
}
