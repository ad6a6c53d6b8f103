//! The rules of an index: which debugging information entries are visited, indexed and static, and what kind of name
//! they have.
//!
//! Kind and static are those of the GDB manual, "Index Section Format"; tags and languages those of DWARF 5, sections
//! 7.5.3 and 7.12.
#![tactic(auto)]

mod language;
mod rules;
mod tag;

pub use index_model::{Class, Facts, Kind, Parent};
pub use language::class;
pub use rules::{indexed, is_static, visited};
pub use tag::{in_table, kind};
