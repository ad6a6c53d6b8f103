//! A node by the offsets of its texts.

use crate::shard::Next;

/// What an entry says of itself (DWARF 5, sections 2 to 5).
#[derive(Clone, Copy)]
pub struct OwnFacts {
    /// Whether it is a declaration.
    pub declaration: bool,
    /// Whether it is external.
    pub external: bool,
    /// Whether it is a scoped enumeration.
    pub enum_class: bool,
    /// Whether it says that it is the main program.
    pub main: bool,
    /// Whether it has a low_pc, ranges or an entry_pc.
    pub address: bool,
    /// Whether it has a const_value or, as a variable, a location.
    pub value: bool,
}

/// A node that has no addresses and no signature, and whose texts are strings of `.debug_str`, each by its offset there.
#[derive(Clone, Copy)]
pub struct SmallNode {
    /// The unit's number in section order, counted from 0.
    pub unit: u32,
    /// The joint offset of the entry.
    pub offset: u64,
    /// The joint offset of the lexical parent. None for a root.
    pub parent: Option<u64>,
    pub tag: u64,
    pub own: OwnFacts,
    pub name: Option<u64>,
    pub linkage: Option<u64>,
    pub next: Option<Next>,
}
