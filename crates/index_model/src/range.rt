//! Ranges of addresses (DWARF 5, section 2.17).

/// The addresses from `low` on and below `end`.
#[derive(Clone, Copy, Debug, PartialEq, Eq)]
pub struct Range {
    pub low: u64,
    pub end: u64,
}

/// A range of a unit.
#[derive(Clone, Copy, Debug, PartialEq, Eq)]
pub struct UnitRange {
    /// The unit's number in section order, counted from 0.
    pub unit: u32,
    pub range: Range,
}
