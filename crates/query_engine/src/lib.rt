//! The table of an index: its entries, found by name (DWARF 5, section 6.1.1).
//!
//! The names are sorted by bytes and each stands once, with the places of its entries, so that a look-up halves. No name is
//! copied: it is read from the first entry that has it.
#![tactic(auto)]

mod counting;
mod groups;
mod halves;
mod key;
mod label;
mod labels;
mod listed;
mod listing;
mod marks;
mod names;
mod order;
mod orders;
mod ranks;
mod search;
mod simple;
mod spelled;
mod spelling;
mod table;
mod way;

pub use listing::{ListedName, ListedNames};
pub use table::Table;
