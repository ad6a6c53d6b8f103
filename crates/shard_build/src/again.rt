//! Entries that are read again from the bytes of their unit, where no node was kept of them.

ghost use Rattle.std.specs.Prelude.{◌≡◌, ◌≤◌, ◌<◌, ◌+◌, ◌^◌, Contains, IfOk, Ok, length};
ghost use Rattle.std.specs.List.{AllZip};
ghost use Rattle.index_model.specs.NodeSeen.{node_seen};
ghost use Rattle.index_model.specs.Program.{located};
ghost use Rattle.index_model.specs.ShardParts.{spans_of, IsSeenOf};
ghost use Rattle.index_model.specs.Strings.{Texts as TextsMeant, base_of};
ghost use Rattle.file_image.specs.Images.{unit_bytes};
ghost use Rattle.shard_build.specs.Again.{walk_by, IsSound};
ghost use Rattle.shard_build.specs.Entries.{IsNodeIn};
ghost use Rattle.shard_build.specs.Found.{located_in_span, IsSpanOfParent};
ghost use Rattle.shard_build.specs.Kept.{node_under};
ghost use Rattle.shard_build.specs.Texts.{texts_by, HoldsTexts};

use crate::above::Above;
use crate::facts;
use crate::home::UnitInFile;
use crate::text_places::TextPlaces;
use entry_scan::{Abbrevs, Item, Walk, item_at};
use index_model::{Node, Nodes, NodesSoFar, Span, TextBytes};
use ix_base::NoMemory;
use std::alloc::Global;

impl<'s, 'f> UnitInFile<'s, 'f> {
    /// The node of the entry at a joint offset in the span of its parent, None where no entry of the unit stands there.
    pub(crate) fn node_within(
        &self,
        abbrevs: &Abbrevs,
        span: &Span,
        offset: u64,
    ) -> Option<Node<'f>>
        requires own { self.now.bytes.now ≡ unit_bytes self.now.sections.now self.now.unit }
        requires header { self.now.unit.body ≤ length self.now.bytes.now }
        requires small { self.now.unit.start + length self.now.bytes.now < 2 ^ 63 }
        requires sound { IsSound self.now abbrevs.now }
        requires number { span.now.unit ≡ self.now.number }
        requires span { Contains (spans_of (walk_by self.now abbrevs.now)) span.now }
        requires parent { IsSpanOfParent (walk_by self.now abbrevs.now) span.now offset }
        ensures { IsNodeIn self.now.sections.now result (located_in_span (walk_by self.now abbrevs.now) span.now offset) }
    {
        let item = item_at(self.bytes, &self.unit, abbrevs, span, offset)?;
        let base = self.str_offsets_base(abbrevs);
        Some(self.node_of_sound(base, Some(span.entry), &item))
    }

    /// The nodes of all entries of the unit, in section order.
    pub(crate) fn nodes(
        &self,
        alloc: Global,
        file: &'f [u8],
        abbrevs: &Abbrevs,
    ) -> Result<Nodes<'f>, NoMemory>
        requires own { self.now.bytes.now ≡ unit_bytes self.now.sections.now self.now.unit }
        requires header { self.now.unit.body ≤ length self.now.bytes.now }
        requires small { self.now.unit.start + length self.now.bytes.now < 2 ^ 63 }
        requires sound { IsSound self.now abbrevs.now }
        ensures { IfOk result (λ nodes. AllZip (IsSeenOf self.now.sections.now) nodes (located (walk_by self.now abbrevs.now))) }
    {
        let base = self.str_offsets_base(abbrevs);
        let places = TextPlaces::of(file);
        let bytes = TextBytes { file, strings: &[] };
        let mut nodes = NodesSoFar::new(alloc, bytes);
        let mut above = Above::new(alloc)?;
        let mut walk = Walk::new(self.bytes, &self.unit, abbrevs);
        while let Ok(Some(entry)) = walk.next() {
            let node = self.node_of_sound(base, above.parent(&entry), &entry);
            nodes.push(&node, places.of_entry(self, base, &entry))?;
            above.pass(&entry);
        }
        Ok(nodes.finish())
    }

    // The node of an entry without a fault, whose parent has this joint offset.
    fn node_of_sound(&self, base: Option<u64>, parent: Option<u64>, entry: &Item<'_>) -> Node<'f>
        requires texts { HoldsTexts self.now.bytes.now self.now.unit entry.now }
        requires sound { (t : TextsMeant) × (texts_by self.now.sections.now base self.now.unit.wide entry.now ≡ Ok t) }
        ensures { (t : TextsMeant) → texts_by self.now.sections.now base self.now.unit.wide entry.now ≡ Ok t → node_seen result ≡ node_under self.now.sections.now (self.now.number, self.now.unit) parent entry.now t }
    {
        match self.texts(base, entry) {
            Ok(texts) => self.node_under(parent, entry, texts),
            Err(_) => unreachable!(),
        }
    }

    /// Where the unit's part of `.debug_str_offsets` begins, as its root says (DWARF 5, section 7.26). None where it doesn't.
    pub fn str_offsets_base(&self, abbrevs: &Abbrevs) -> Option<u64>
        requires header { self.now.unit.body ≤ length self.now.bytes.now }
        requires small { self.now.unit.start + length self.now.bytes.now < 2 ^ 63 }
        requires sound { IsSound self.now abbrevs.now }
        ensures { result ≡ base_of 0x72 (walk_by self.now abbrevs.now) }
    {
        match Walk::new(self.bytes, &self.unit, abbrevs).next() {
            Ok(Some(root)) => facts::str_offsets_base(&root),
            _ => None,
        }
    }
}
