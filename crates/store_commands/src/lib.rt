//! The commands that store an index: `index` stores it alone, and `add` the program with it.
#![tactic(auto)]

mod add;
mod by_gdb;
mod index;
mod program;

pub use add::add_file;
pub use index::index_file;
