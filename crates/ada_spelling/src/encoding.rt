//! A decoded name as it stands in an index.

ghost use Rattle.std.specs.Prelude.{◌≡◌, ◌++◌, codes, IfOk, OnOk};
ghost use Rattle.ada_spelling.specs.AdaNames.{without_bracket, opens_suffix, encoded_byte, encoded};

use crate::bytes::are_letters;
use std::alloc::{AllocError, Global};

// A suffix without its closing bracket, which it may lack.
fn without_bracket(text: &[u8]) -> &[u8]
    ensures { result.now ≡ without_bracket text.now }
{
    match text.strip_suffix(b"]") {
        Some(letters) => letters,
        None => text,
    }
}

// Whether a byte is a bracket with a suffix behind it.
fn opens_suffix(b: u8, behind: &[u8]) -> bool
    ensures { result ≡ opens_suffix b behind.now }
{
    b == b'[' && are_letters(without_bracket(behind))
}

// Adds a byte, and `__` for a point.
fn push_encoded(text: &mut Vec<u8>, b: u8) -> Result<(), AllocError>
    ensures { OnOk result (text.new.items ≡ text.old.items ++ encoded_byte b) }
{
    if b == b'.' {
        text.extend_from_slice(b"__")
    } else {
        Ok(text.push(b)?)
    }
}

// Adds the suffix behind a bracket.
fn push_suffix(text: &mut Vec<u8>, behind: &[u8]) -> Result<(), AllocError>
    ensures { OnOk result (text.new.items ≡ text.old.items ++ (codes "." ++ without_bracket behind.now)) }
{
    text.push(b'.')?;
    text.extend_from_slice(without_bracket(behind))
}

/// A decoded name as it stands in an index, as `pkg__proc` for `pkg.proc` (ada_encode_1 of gdb's ada-lang.c, without operators and
/// wide characters).
#[tactic(auto, using(crate::proofs::EncodingLaws::encoded_none))]
pub fn encode(alloc: Global, name: &[u8]) -> Result<Vec<u8>, AllocError>
    ensures { IfOk result (λ text. text.items ≡ encoded name.now) }
{
    let mut text = Vec::with_capacity(alloc, name.len())?;
    for (at, b) in name.iter().enumerate() {
        let behind = &name[at + 1..];
        if opens_suffix(*b, behind) {
            push_suffix(&mut text, behind)?;
            return Ok(text);
        }
        push_encoded(&mut text, *b)?;
    }
    Ok(text)
}
