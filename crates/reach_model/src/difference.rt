//! Where an address table says something else than the units' own ranges.

/// An address with two answers (DWARF 5, section 6.1.2 for the table, 2.17 for the ranges of a unit).
#[derive(Clone, Copy)]
pub struct Difference {
    pub address: u64,
    /// The unit by the table.
    pub table: Option<u32>,
    /// The unit by its own ranges.
    pub own: Option<u32>,
}
