//! Searches in the lists of a shard.

ghost use Rattle.std.specs.Prelude.{◌≡◌, ◌<◌, ◌≤◌, length, filter, nat_lt, option_and_then, option_map, slice_get, take, None};
ghost use Rattle.std.specs.List.{last_or};
ghost use Rattle.std.specs.List.Sorted.{IsNonDecreasingBy, IsPartitionPoint};
ghost use Rattle.index_model.specs.Searches.{if_open, is_begun, is_below};

use crate::nodes::Nodes;
use crate::shard::Span;
use crate::spans::Spans;

impl<'f> Nodes<'f> {
    /// How many nodes stand before an offset. Their offsets rise.
    pub fn count_before(&self, offset: u64) -> usize
        ensures within { result ≤ length self.now }
        ensures parted { IsNonDecreasingBy (λ n. n.facts.offset) self.now → IsPartitionPoint (λ n. n.facts.offset < offset) (λ n. offset ≤ n.facts.offset) self.now result }
    {
        let mut low = 0;
        let mut high = self.len();
        while low < high {
            let middle = low + (high - low) / 2;
            if self.stands_before(middle, offset) {
                low = middle + 1;
            } else {
                high = middle;
            }
        }
        low
    }

    // Whether the node at an index stands before an offset.
    fn stands_before(&self, index: usize, offset: u64) -> bool
        ensures { result ≡ is_below offset (option_map (λ n. n.facts.offset) (slice_get self.now index)) }
    {
        match self.offset_at(index) {
            Some(at) => at < offset,
            None => false,
        }
    }

    /// How many nodes are those of units before this one. The numbers of their units don't fall.
    pub fn count_of_units_before(&self, unit: u32) -> usize
        ensures within { result ≤ length self.now }
        ensures parted { IsNonDecreasingBy (λ n. n.facts.unit) self.now → IsPartitionPoint (λ n. n.facts.unit < unit) (λ n. unit ≤ n.facts.unit) self.now result }
    {
        let mut low = 0;
        let mut high = self.len();
        while low < high {
            let middle = low + (high - low) / 2;
            if self.is_of_earlier(middle, unit) {
                low = middle + 1;
            } else {
                high = middle;
            }
        }
        low
    }

    // Whether the node at an index is that of an earlier unit.
    fn is_of_earlier(&self, index: usize, unit: u32) -> bool
        ensures { result ≡ is_below unit (option_map (λ n. n.facts.unit) (slice_get self.now index)) }
    {
        match self.unit_at(index) {
            Some(own) => own < unit,
            None => false,
        }
    }
}

impl Spans {
    /// How many spans begin at a place or before it. The places where they begin rise.
    pub fn count_begun(&self, place: u64) -> usize
        ensures within { result ≤ length self.now }
        ensures parted { IsNonDecreasingBy (λ s. s.from) self.now → IsPartitionPoint (λ s. s.from ≤ place) (λ s. place < s.from) self.now result }
    {
        let mut low = 0;
        let mut high = self.len();
        while low < high {
            let middle = low + (high - low) / 2;
            if self.is_begun(middle, place) {
                low = middle + 1;
            } else {
                high = middle;
            }
        }
        low
    }

    // Whether the span at an index begins at a place or before it.
    fn is_begun(&self, index: usize, place: u64) -> bool
        ensures { result ≡ is_begun place (slice_get self.now index) }
    {
        match self.get(index) {
            Some(span) => span.from <= place,
            None => false,
        }
    }

    /// The last of the first `count` spans that ends behind a place.
    pub fn last_open(&self, count: usize, place: u64) -> Option<Span>
        ensures { result ≡ last_or None (filter (λ s. nat_lt place s.to) (take count self.now)) }
    {
        for k in (0..count.min(self.len())).rev() {
            if let Some(span) = self.open_at(k, place) {
                return Some(span);
            }
        }
        None
    }

    // The span at an index, if it ends behind a place.
    fn open_at(&self, index: usize, place: u64) -> Option<Span>
        ensures { result ≡ option_and_then (if_open place) (slice_get self.now index) }
    {
        let span = self.get(index)?;
        if place < span.to { Some(span) } else { None }
    }
}
