//! The entries that the index has (DWARF 5, section 6.1.1.1).

/// What entries of one abbreviation have in common: their tag, and whether their units are type units.
#[derive(Clone, Copy, PartialEq, Eq)]
pub(crate) struct Row {
    pub tag: u16,
    pub types: bool,
}

/// An entry as the index has it under a name.
#[derive(Clone, Copy)]
pub(crate) struct IndexEntry {
    pub row: Row,
    /// The unit's place among those of its sort.
    pub unit: u32,
    /// Where the entry stands, counted from its unit's first byte.
    pub offset: u32,
}
