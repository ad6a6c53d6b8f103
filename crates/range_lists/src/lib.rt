//! The ranges of a unit's addresses (DWARF 5, sections 2.17 and 7.25; DWARF 4, section 2.17.3 for the lists of versions 2 to
//! 4).
//!
//! An entry has one range, by its low_pc and high_pc, or a list of them, which stands in `.debug_ranges` or, in version 5, in
//! `.debug_rnglists`. Addresses may stand in `.debug_addr`. A unit has the ranges of its root, or else those of its indexed
//! subprograms.
#![tactic(auto)]

mod found;
mod home;
mod list_entry;
mod lists;
mod node;
mod run;
mod unit;
mod unit_nodes;

pub use found::FoundRanges;
pub use index_model::UnitRange;
