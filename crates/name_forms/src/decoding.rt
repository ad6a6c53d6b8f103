//! Ada names as GNAT codes them: packages and subprograms joined by `__`.

ghost use Rattle.std.specs.Prelude.{◌≡◌, ◌++◌, length, true, false, IfOk, OnOk, MatchOption};
ghost use Rattle.index_model.specs.AdaNames.{pieces as pieces_of, decoded, decoded_simple, shortened as shortened_to, is_coded, last_of};
ghost use Rattle.name_forms.specs.Pieces.{pointed};

use crate::parts::is_good;
use crate::pieces::Pieces;
use crate::shortened::shortened;
use ix_base::NoMemory;
use std::alloc::Global;

/// The decoded name, as `pkg.proc` for `pkg__proc__2`. A name that isn't coded stays as it stood.
#[tactic(auto, unfolding(index_model::specs::AdaNames::decoded))]
pub fn ada(alloc: Global, name: &[u8]) -> Result<Vec<u8>, NoMemory>
    ensures { IfOk result (λ v. v.items ≡ decoded name.now) }
{
    match coded(name) {
        Some(short) => pointed(alloc, short),
        None => Ok(name.to_vec(alloc)?),
    }
}

/// The length of the decoded name. Where it is the name's own length, the name stays as it stood.
pub fn ada_length(name: &[u8]) -> usize
    ensures value { result ≡ length (decoded name.now) }
    ensures stays { result ≡ length name.now → decoded name.now ≡ name.now }
{
    match coded(name) {
        Some(short) => pointed_length(short),
        None => name.len(),
    }
}

/// The length of the simple name, which ends the decoded one.
#[tactic(auto, unfolding(index_model::specs::AdaNames::decoded_simple))]
pub fn ada_tail(name: &[u8]) -> usize
    ensures { result ≡ length (decoded_simple name.now) }
{
    match coded(name) {
        Some(short) => last_length(short),
        None => name.len(),
    }
}

// What the pieces of a coded name are taken from; none where the name isn't coded.
#[tactic(auto, unfolding(index_model::specs::AdaNames::is_coded))]
fn coded(name: &[u8]) -> Option<&[u8]>
    ensures { MatchOption result (is_coded name.now ≡ false) (λ short. (is_coded name.now ≡ true) × (short.now ≡ shortened_to name.now)) }
{
    let short = shortened(name);
    if is_good(short) { Some(short) } else { None }
}

// The pieces joined by points, in room of their length.
fn pointed(alloc: Global, short: &[u8]) -> Result<Vec<u8>, NoMemory>
    ensures { IfOk result (λ v. v.items ≡ pointed (pieces_of short.now)) }
{
    let mut text = Vec::with_capacity(alloc, pointed_length(short))?;
    push_pieces(&mut text, Pieces::of(short))?;
    Ok(text)
}

// Each `__` becomes one point.
fn pointed_length(short: &[u8]) -> usize
    ensures { result ≡ length (pointed (pieces_of short.now)) }
{
    short.len() + 1 - Pieces::of(short).count()
}

// Adds the pieces with a point between each two.
fn push_pieces(text: &mut Vec<u8>, mut pieces: Pieces<'_>) -> Result<(), NoMemory>
    ensures { OnOk result (text.new.items ≡ text.old.items ++ pointed pieces.entry) }
{
    if let Some(first) = pieces.next() {
        text.extend_from_slice(first)?;
    }
    for piece in pieces {
        text.push(b'.')?;
        text.extend_from_slice(piece)?;
    }
    Ok(())
}

// The length of the last piece.
fn last_length(short: &[u8]) -> usize
    ensures { result ≡ length (last_of (pieces_of short.now)) }
{
    match Pieces::of(short).last() {
        Some(piece) => piece.len(),
        None => 0,
    }
}
