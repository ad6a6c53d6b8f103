//! A node in 32 bytes.

ghost use Rattle.std.specs.Prelude.{◌≡◌, true, if◌then◌else◌, Some, None, option_map};
ghost use Rattle.index_model.specs.Marks.{has_parent, has_name, has_linkage, has_next, is_near, is_aside};
ghost use Rattle.index_model.specs.NodeSeen.{node_seen};
ghost use Rattle.index_model.specs.Leaves.{leaf_seen, leaf_text};

use crate::given::Given;
use crate::marks::NodeFlags;
use crate::place::{TextBytes, string_of, text_at};
use crate::shard::{Next, Node};

/// A node whose numbers are small, whose texts stand in the file, and that has no addresses and no signature; or where
/// another one lies aside.
#[derive(Clone, Copy)]
pub(crate) struct Leaf {
    /// The joint offset of the entry; or the index of a node that lies aside.
    pub offset: u32,
    pub unit: u32,
    pub parent: u32,
    /// Where the name begins in the file, or in `.debug_str`.
    pub name: u32,
    /// Where the linkage name begins there.
    pub linkage: u32,
    /// What the reference to the next one names.
    pub next: u32,
    pub tag: u16,
    pub name_length: u16,
    pub linkage_length: u16,
    pub marks: NodeFlags,
    pub given: Given,
}

const _: () = prove!(size_of::<Leaf>() == 32);

impl Leaf {
    /// The leaf of a node that lies aside, with this index.
    pub fn aside(index: u32) -> Leaf
        ensures aside { is_aside result.given ≡ true }
        ensures index { result.offset ≡ index }
    {
        Leaf {
            offset: index,
            unit: 0,
            parent: 0,
            name: 0,
            linkage: 0,
            next: 0,
            tag: 0,
            name_length: 0,
            linkage_length: 0,
            marks: NodeFlags::none(),
            given: Given::whole(),
        }
    }

    /// The node for which a leaf stands by itself.
    #[tactic(auto, unfolding(crate::specs::Leaves::leaf_seen))]
    pub fn node<'f>(&self, bytes: TextBytes<'f>) -> Node<'f>
        ensures { node_seen result ≡ leaf_seen bytes.entry self.now }
    {
        Node {
            unit: self.unit,
            offset: u64::from(self.offset),
            parent: self.parent(),
            tag: u64::from(self.tag),
            declaration: self.marks.declaration(),
            external: self.marks.external(),
            enum_class: self.marks.enum_class(),
            main: self.marks.main(),
            address: self.marks.address(),
            value: self.marks.value(),
            name: self.name(bytes),
            linkage: self.linkage(bytes),
            next: self.next(),
            signature: None,
            low: None,
            high: None,
            ranges: None,
        }
    }

    fn parent(&self) -> Option<u64>
        ensures { result ≡ (if has_parent self.now.given then Some self.now.parent else None) }
    {
        if self.given.parent() {
            Some(u64::from(self.parent))
        } else {
            None
        }
    }

    fn name<'f>(&self, bytes: TextBytes<'f>) -> Option<&'f [u8]>
        ensures { option_map (λ t. t.now) result ≡ (if has_name self.now.given then leaf_text bytes.entry self.now self.now.name self.now.name_length else None) }
    {
        if self.given.name() {
            self.text(bytes, self.name, self.name_length)
        } else {
            None
        }
    }

    fn linkage<'f>(&self, bytes: TextBytes<'f>) -> Option<&'f [u8]>
        ensures { option_map (λ t. t.now) result ≡ (if has_linkage self.now.given then leaf_text bytes.entry self.now self.now.linkage self.now.linkage_length else None) }
    {
        if self.given.linkage() {
            self.text(bytes, self.linkage, self.linkage_length)
        } else {
            None
        }
    }

    // The text at a place, which has this length if it isn't a string of `.debug_str`.
    fn text<'f>(&self, bytes: TextBytes<'f>, at: u32, length: u16) -> Option<&'f [u8]>
        ensures { option_map (λ t. t.now) result ≡ leaf_text bytes.entry self.now at length }
    {
        if self.given.strings() {
            string_of(bytes.strings, at)
        } else {
            text_at(bytes.file, at, length)
        }
    }

    fn next(&self) -> Option<Next>
        ensures { result ≡ (if has_next self.now.given then Some (record { target = self.now.next; near = is_near self.now.given }) else None) }
    {
        if self.given.next() {
            Some(Next {
                target: u64::from(self.next),
                near: self.given.near(),
            })
        } else {
            None
        }
    }
}
