//! The reader of `.gdb_index`, versions 8 and 9 (GDB manual, "Index Section Format").
//!
//! An index has, one after the other: a header with the offsets of its areas, the list of units (16 bytes each: offset and
//! length), the list of type units (24 bytes each: offset, type offset and signature), the address area (20 bytes each: low,
//! end and the index number of a unit), the symbol table (slots of 8 bytes: the offsets of a name and of a vector in the
//! constant pool; both 0 where it is empty), in version 9 the shortcut (the language of main and the offset of its name), and
//! the constant pool (vectors: how many elements, and so many numbers of 4 bytes; names, each ended by a zero). All numbers
//! have their lowest byte first.
//!
//! Anyone may have made the bytes. `GdbIndex::open` accepts exactly those without a fault, else it gives the first fault, its
//! code (`index_model::index_code`, 40 to 47) and its place in the section. Memory is taken while `open` tests, for what it has seen
//! of the constant pool and of paths; where there is none it does without, so no answer depends on it.
#![tactic(auto)]

mod addresses;
mod area;
mod areas;
mod elements;
mod header;
mod homes;
mod index;
mod parts;
mod path;
mod runs;
mod shortcut;
mod slots;
mod symbols;
mod walks;

pub use elements::Elements;
pub use index::GdbIndex;
