//! The units of a program (DWARF 5, section 7.5.1; DWARF 4, section 7.5.1 for versions 2 to 4).

/// The section in which a unit stands.
#[derive(Clone, Copy, Debug, PartialEq, Eq)]
pub enum Part {
    /// `.debug_info`.
    Info,
    /// `.debug_types`.
    Types,
}

/// What a unit is.
#[derive(Clone, Copy, Debug, PartialEq, Eq)]
pub enum UnitSort {
    /// A full compilation unit.
    Compile,
    /// A type unit.
    TypeUnit,
    /// A partial unit.
    Partial,
    /// A skeleton unit.
    Skeleton,
}

/// A unit, by its header.
#[derive(Clone, Copy, Debug, PartialEq, Eq)]
pub struct Unit {
    /// The joint offset of its first byte: its offset in `.debug_info`, or its offset in `.debug_types` and the length of
    /// `.debug_info`.
    pub start: u64,
    pub part: Part,
    /// How many bytes it has, its initial length among them.
    pub length: u64,
    pub version: u16,
    /// Whether it has the 64-bit format, in which offsets have 8 bytes.
    pub wide: bool,
    pub sort: UnitSort,
    /// Where its abbreviations begin in `.debug_abbrev`.
    pub abbrev: u64,
    /// Where its first entry stands, counted from the unit's first byte.
    pub body: u64,
    /// The signature of a type unit, else 0.
    pub signature: u64,
    /// Where the type of a type unit stands, counted from the unit's first byte, else 0.
    pub type_offset: u64,
}
