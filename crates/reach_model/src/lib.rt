//! Definitions of what goes beyond one index: a program with its index added, the table of addresses beside the units' own, the source
//! files that units name, and an index that is kept by the program's build-id. They cite those of index_model, so nothing below is
//! proved again.
#![tactic(auto)]

pub mod code;
mod difference;
mod line_table;

pub use difference::Difference;
pub use line_table::{Content, Format};
