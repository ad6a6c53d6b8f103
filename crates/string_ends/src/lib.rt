//! Strings that a zero ends and that stand in one section or pool: `.debug_str` (DWARF 5, section 7.26), the constant pool of
//! `.gdb_index` (GDB manual, "Index Section Format").
//!
//! A string may begin inside another, so that many are ends of one long text. What is asked here of strings is asked without
//! reading the bytes of a text once more for each of them.
#![tactic(auto)]

mod formula;
mod hashed;
mod tail;
mod texts;

pub use formula::Formula;
pub use hashed::{Hashed, hashes_of};
pub use texts::{is_text, last_end, text_at};
