//! Which items of a unit gdb comes to, looks at and opens, on a walk over them (gdb/dwarf2/read.c, `index_dies`).
//!
//! The definitions of gdb_entries go from an item outwards. Here a state goes from item to item, in the order in which they
//! stand, and keeps of each depth the last item that has children. It knows what a walk tells of items, not files.
#![tactic(auto)]

mod laws;
mod parents;
mod run;
mod state;
mod way;

pub use laws::open_items_are_as_read;
pub use run::{Answer, ToldItem, answers};
pub use state::{Look, Reached};
