//! The ranks of texts in byte order.

ghost use Rattle.std.specs.Prelude.{◌≡◌, ◌<◌, ◌^◌, length, IfOk, MatchBool};
ghost use Rattle.query_engine.specs.Pairs.{IsAscending};
ghost use Rattle.query_engine.specs.Ranks.{AreRanksIn, AreNumbersOf, GoesOnAt};
ghost use Rattle.query_engine.specs.Seen.{pairs_seen, texts_seen};

use crate::key::Key;
use crate::spelling::FrontedText;
use std::alloc::{AllocError, Global};

/// The distinct texts in byte order, and the rank of each text among them by its number.
#[derive(Drop)]
pub(crate) struct Ranks<'r> {
    pub distinct: Vec<FrontedText<'r>>,
    pub ranks: Vec<u32>,
}

/// The ranks of the texts of sorted keys, whose numbers are those from 0 on.
pub(crate) fn ranks_of<'r>(alloc: Global, keys: &[Key<'r>]) -> Result<Ranks<'r>, AllocError>
    requires few { length keys.now < 2 ^ 32 }
    requires numbers { AreNumbersOf (pairs_seen keys.now) }
    requires sorted { IsAscending (pairs_seen keys.now) }
    ensures size { IfOk result (λ r. length r.ranks.items ≡ length keys.now) }
    ensures ranks { IfOk result (λ r. AreRanksIn (pairs_seen keys.now) (texts_seen r.distinct.items) r.ranks.items (length keys.now)) }
{
    let mut distinct = Vec::with_capacity(alloc, keys.len())?;
    let mut ranks = vec![in alloc; 0u32; keys.len()]?;
    for i in 0..keys.len() {
        if !goes_on_at(keys, i) {
            distinct.push(keys[i].text)?;
        }
        ranks[keys[i].number as usize] = (distinct.len() - 1) as u32;
    }
    Ok(Ranks { distinct, ranks })
}

// Whether the key at the index has the text of the one before it.
fn goes_on_at(keys: &[Key<'_>], index: usize) -> bool
    requires { index < length keys.now }
    ensures { MatchBool result (GoesOnAt (pairs_seen keys.now) index) (GoesOnAt (pairs_seen keys.now) index → ⊥) }
{
    0 < index && keys[index] == keys[index - 1]
}
