//! Reading numbers and texts from little-endian bytes, and the words for what is wrong with them.
//!
//! The numbers are those of DWARF 5: section 7.2.2 (initial length), 7.4 (offsets of the 32-bit and the 64-bit format),
//! 7.6 (LEB128) and 7.5.5 (strings that a zero ends).
#![tactic(auto)]

pub mod code;
mod cursor;
mod fault;
mod leb;
mod limits;
mod or_memory;

pub use cursor::{Cursor, Initial};
pub use fault::{Fault, NoMemory};
pub use limits::{
    MAX_CHAIN_HOPS, MAX_DEPTH, MAX_FILE_BYTES, MAX_PATH_STEPS, MAX_QUALIFIED_NAME, MAX_STRING,
    MAX_UNITS,
};
pub use or_memory::{OrMemory, Stop};
