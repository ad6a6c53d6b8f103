//! The lexical parent of an entry, by the spans of a shard (DWARF 5, section 2.3).
//!
//! Spans rise by where they begin, and spans of one unit lie inside one another or apart. So the span of the parent is the last
//! that begins at or before the entry and ends behind it.

ghost use Rattle.index_model.specs.Parents.{IsParentAt};

use crate::shard::Shard;

impl<'f> Shard<'f> {
    /// The joint offset of the lexical parent of the entry at this joint offset, None for a root. The shard is that of
    /// units of a file without a fault in its entries, and the entry is one of theirs. At another offset the answer says
    /// nothing.
    pub fn parent_at(&self, offset: u64) -> Option<u64>
        ensures { IsParentAt self.now offset result }
    {
        let begun = self.spans.count_begun(offset);
        match self.spans.last_open(begun, offset) {
            Some(span) => Some(span.entry),
            None => None,
        }
    }
}
