//! Writes the index of a debugger, a `.gdb_index` of version 8 or 9 (GDB manual, "Index Section Format").
//!
//! Behind a header of offsets stand the areas: the units, the type units, the addresses, the symbol table, in version 9 the
//! shortcut to main, and the constant pool with the vectors and the names. The sizes of all areas are known before a byte is
//! written, so the bytes take one reservation.
#![tactic(auto)]

mod addresses;
mod areas;
mod elements;
mod header;
mod index;
mod names;
mod numbers;
mod places;
mod put;
mod sizes;
mod slots;
mod symbols;
mod table;
mod units;
mod vectors;

pub use index::write;
