//! What gdb's rules ask of a program file: by which unit and which class of language each unit is read, and the items of units
//! (gdb/dwarf2/read.c, `index_imported_unit`, `prepare_one_comp_unit`, `index_dies` and `scan_attributes`).
//!
//! The definitions of gdb_entries speak of any item of a file. Here those of a unit are read from its bytes, all or the few that may be
//! listed or lead to what is listed, each with what it says of itself. `FileItems` finds an item of any unit by its
//! joint offset, and what the chain of an item gives. What it read of a unit it shares with its callers. Of each unit `readings` reads the
//! root alone; where one is partial, a second pass reads what all units import, which tells their owners.
#![tactic(auto)]

mod by_owner;
mod chain;
mod codes;
mod facts;
mod file;
mod imports;
mod item;
mod language;
mod producer;
mod read_unit;
mod root;
mod roots;
mod tables;
mod text;
mod unit;
mod unit_with_table;
mod which;

pub use by_owner::{Reading, readings};
pub use chain::Chain;
pub use file::FileItems;
pub use item::UnitItem;
pub use read_unit::ReadUnit;
pub use text::ItemText;
pub use which::Which;
