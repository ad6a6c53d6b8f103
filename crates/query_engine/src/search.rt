//! The search for a name by halving.

ghost use Rattle.std.specs.Prelude.{◌≡◌, ◌≢◌, ◌<◌, ℕ, length, MatchOption};
ghost use Rattle.query_engine.specs.Asked.{TailsFit};
ghost use Rattle.query_engine.specs.Halving.{AddsHalvings};
ghost use Rattle.query_engine.specs.Sorted.{AreNamesOf, name_at};

use crate::names::SortedNames;
use crate::spelling::FrontedText;
use index_model::{Entry, Steps};
use std::cmp::Ordering;
use std::sync::ledger::Ledger;

/// The index of a text among the sorted ones.
pub(crate) fn find<L: Ledger>(
    names: &SortedNames,
    entries: &[Entry<'_>],
    asked: &[u8],
    steps: &mut Steps<L>,
) -> Option<usize>
    requires tails { TailsFit entries.now }
    requires names { AreNamesOf entries.now names.now }
    ensures found { MatchOption result
        ((k : ℕ) → k < length names.now.groups.items → name_at entries.now names.now k ≢ asked.now)
        (λ k. (k < length names.now.groups.items) × (name_at entries.now names.now k ≡ asked.now)) }
    ensures steps { AddsHalvings (length names.now.groups.items) steps.old steps.new }
{
    let asked = FrontedText::new(asked);
    let mut low = 0;
    let mut high = names.len();
    while low < high {
        let middle = low + (high - low) / 2;
        match names.compare(entries, middle, &asked, steps) {
            Ordering::Less => low = middle + 1,
            Ordering::Equal => return Some(middle),
            Ordering::Greater => high = middle,
        }
    }
    None
}
