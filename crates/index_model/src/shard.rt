//! What is kept of a run of consecutive units once their entries were read, and what their references give.
//!
//! Most entries are neither indexed nor named by a reference. So a node is kept only of a root and of an entry that may be
//! visited and whose tag an index may list, and a span of each entry with children: from the spans the lexical parent of every
//! entry is known (DWARF 5, section 2.3), and an entry without a node is read again from the file. Names are borrowed from the
//! file.

use crate::list::List;
use crate::nodes::Nodes;
use crate::spans::Spans;

/// What the root of a unit says of the whole unit (DWARF 5, section 3.1.1).
#[derive(Clone, Copy)]
pub struct Root {
    /// The language code, 0 where it is above 65,535. None where the root has no language attribute.
    pub language: Option<u16>,
    /// Where the unit's part of `.debug_addr` begins.
    pub addr_base: Option<u64>,
    /// Where the unit's part of `.debug_rnglists` begins.
    pub rnglists_base: Option<u64>,
    /// Whether the root is that of a partial unit.
    pub partial: bool,
}

/// The reference that an entry's chain follows, as it stands in the entry: its specification, or else its abstract origin
/// (DWARF 5, sections 2.13.2 and 3.3.8.1).
#[derive(Clone, Copy)]
pub struct Next {
    pub target: u64,
    /// Whether it counts from the unit's first byte, and not from that of `.debug_info`.
    pub near: bool,
}

/// A number of an address attribute, as it stands in the entry (DWARF 5, section 2.17).
#[derive(Clone, Copy)]
pub enum Raw {
    /// An address.
    Address(u64),
    /// An index into the unit's part of `.debug_addr`.
    AddressIndex(u64),
    /// A number of bytes behind the low end.
    Constant(u64),
    /// The offset of a list of ranges.
    Offset(u64),
    /// An index into the unit's part of `.debug_rnglists`.
    RangeIndex(u64),
}

/// A root, or an entry that may be visited and whose tag an index may list.
#[derive(Clone, Copy)]
pub struct Node<'f> {
    /// The unit's number in section order, counted from 0.
    pub unit: u32,
    /// The joint offset of the entry.
    pub offset: u64,
    /// The joint offset of the lexical parent. None for a root.
    pub parent: Option<u64>,
    pub tag: u64,
    /// Whether the entry itself is a declaration.
    pub declaration: bool,
    /// Whether the entry itself is external.
    pub external: bool,
    /// Whether the entry is a scoped enumeration.
    pub enum_class: bool,
    /// Whether the entry itself says that it is the main program.
    pub main: bool,
    /// Whether the entry itself has a low_pc, ranges or an entry_pc.
    pub address: bool,
    /// Whether the entry itself has a const_value or, as a variable, a location.
    pub value: bool,
    /// Its own name, if it has one, as it stands in the file.
    pub name: Option<&'f [u8]>,
    /// Its own linkage name, if it has one.
    pub linkage: Option<&'f [u8]>,
    pub next: Option<Next>,
    /// The signature of the type unit that describes it.
    pub signature: Option<u64>,
    pub low: Option<Raw>,
    pub high: Option<Raw>,
    pub ranges: Option<Raw>,
}

/// The bytes of the children of an entry.
#[derive(Clone, Copy)]
pub struct Span {
    /// The unit's number in section order, counted from 0.
    pub unit: u32,
    /// The joint offset of the entry.
    pub entry: u64,
    /// The depth of the entry, the root having depth 0.
    pub depth: u32,
    /// The joint offset behind the entry.
    pub from: u64,
    /// The joint offset behind the null that ends the children, or of the unit's end where no null ends them.
    pub to: u64,
}

/// An imported unit whose import lies in the unit or section that its form names (DWARF 5, section 3.2.5).
#[derive(Clone, Copy)]
pub struct Import {
    /// The number of the unit that imports, in section order and counted from 0.
    pub unit: u32,
    /// The joint offset that the import names.
    pub target: u64,
}

/// What stands for the walks of a run of consecutive units. All lists are in section order.
#[derive(Drop)]
pub struct Shard<'f> {
    /// The number of the run's first unit. Of a run without units it says nothing.
    pub first: u32,
    /// One of each unit.
    pub roots: List<Root>,
    /// One of each root, and of each entry that may be visited and whose tag an index may list.
    pub nodes: Nodes<'f>,
    /// One of each entry with children.
    pub spans: Spans,
    pub imports: List<Import>,
}

/// What an index lists of an indexed entry, by the entry itself and by its references.
#[derive(Clone, Copy)]
pub struct LinkedEntry<'f> {
    /// The unit's number in section order, counted from 0.
    pub unit: u32,
    pub tag: u16,
    /// Whether its name is static: it counts in its own unit alone.
    pub local: bool,
    /// Whether the entry itself says that it is the main program.
    pub main: bool,
    /// The joint offset of the entry.
    pub offset: u64,
    /// The joint offset of the lexical parent of the last entry of its chain. None where that one is a root.
    pub around: Option<u64>,
    /// Its name without a scope: what the file spells for it, else that of the anonymous namespace.
    pub name: &'f [u8],
    /// The first linkage name on its chain.
    pub linkage: Option<&'f [u8]>,
    /// The length of its qualified name in bytes.
    pub length: u32,
}

/// The indexed entries of a run of units, in section order.
#[derive(Drop)]
pub struct Linked<'f> {
    pub entries: List<LinkedEntry<'f>>,
}
