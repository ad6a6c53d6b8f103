//! The unit at an address, among units whose ranges may overlap (DWARF 5, sections 2.17 and 3.1.1).
//!
//! The unit at an address is the first in section order with a range that contains the address. The map keeps pieces: the
//! maximal ranges in which one unit is the unit at the address. They ascend, so a binary search finds the unit.
#![tactic(auto)]

mod laws;
mod map;
mod overlay;

pub use index_model::{Range, UnitRange};
pub use laws::pieces_are_exact;
pub use map::AddressMap;
