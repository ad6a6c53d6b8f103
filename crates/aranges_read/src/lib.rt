//! The address table `.debug_aranges` (DWARF 5, sections 6.1.2 and 7.21), and how it differs from the units' own ranges.
#![tactic(auto)]

mod difference;
mod header;
mod laws;
mod pairs;
mod table;

pub use difference::compare;
pub use laws::first_difference_is_the_first;
pub use reach_model::Difference;
pub use table::read;
