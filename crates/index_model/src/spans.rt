//! The spans of a shard, small.
//!
//! There are millions of spans, and nearly all have small numbers. So 20 bytes are kept of each, and a span of which they can't
//! say all lies aside, whole.

ghost use Rattle.std.specs.Prelude.{◌≡◌, ◌++◌, ◌∷◌, [], length, slice_get, OnOk};
ghost use Rattle.index_model.specs.Searches.{ended_at};

use crate::shard::Span;
use crate::span_leaf::SpanLeaf;
use ix_base::NoMemory;
use std::alloc::Global;
use std::marker::Model;

/// The bytes of the children of entries, in the order in which they were added. Contracts see them as a list.
#[derive(Drop)]
pub struct Spans {
    // One of each span.
    leaves: Vec<SpanLeaf>,
    // The spans that lie aside. One that was ended lies there twice.
    whole: Vec<Span>,
}

impl Model for Spans {
    ghost use Rattle.std.specs.Prelude.{List, map, All};
    ghost use Rattle.index_model.specs.declared.shard.Span.{Span};
    ghost use Rattle.index_model.specs.SpanLeaves.{IsSpanInside, span_in};

    ghost Value = { List Span };

    ghost view = { λ s. map (span_in s.whole.items) s.leaves.items };

    ghost invariant = { λ s. All (IsSpanInside s.whole.items) s.leaves.items };
}

impl Spans {
    /// No spans.
    pub fn new(alloc: Global) -> Spans
        ensures { result ≡ [] }
    {
        Spans {
            leaves: Vec::new(alloc),
            whole: Vec::new(alloc),
        }
    }

    /// Adds a span behind the others.
    #[tactic(auto, using(crate::proofs::SpanLeafLaws::added_alone, crate::proofs::SpanLeafLaws::added_aside))]
    pub fn push(&mut self, span: Span) -> Result<(), NoMemory>
        ensures { OnOk result (self.new ≡ self.old ++ span ∷ []) }
    {
        if let Some(leaf) = SpanLeaf::of(&span) {
            self.leaves.push(leaf)?;
        } else {
            let index = u32::try_from(self.whole.len()).map_err(|_| NoMemory)?;
            self.whole.push(span)?;
            self.leaves.push(SpanLeaf::aside(index))?;
        }
        Ok(())
    }

    /// How many there are.
    pub fn len(&self) -> usize
        ensures { result ≡ length self.now }
    {
        self.leaves.len()
    }

    /// The span at an index.
    pub fn get(&self, index: usize) -> Option<Span>
        ensures { result ≡ slice_get self.now index }
    {
        Some(self.leaves.get(index)?.span(&self.whole))
    }

    /// The span at an index ends here, if there is one.
    #[tactic(auto, using(crate::proofs::SpanLeafLaws::ended_alone, crate::proofs::SpanLeafLaws::ended_aside, crate::proofs::SpanLeafLaws::ended_none))]
    pub fn end(&mut self, index: usize, after: u64) -> Result<(), NoMemory>
        ensures { OnOk result (self.new ≡ ended_at self.old index after) }
    {
        let Some(before) = self.get(index) else {
            return Ok(());
        };
        let span = Span {
            to: after,
            ..before
        };
        if let Some(leaf) = SpanLeaf::of(&span) {
            self.leaves[index] = leaf;
        } else {
            let aside = u32::try_from(self.whole.len()).map_err(|_| NoMemory)?;
            self.whole.push(span)?;
            self.leaves[index] = SpanLeaf::aside(aside);
        }
        Ok(())
    }
}
