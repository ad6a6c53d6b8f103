//! The source files that the line tables of units name (DWARF 5, sections 6.2.4 and 6.2.4.1; DWARF 4, section 6.2.4).
//!
//! A unit's line table begins where its root says. Its header has a table of directories and one of files, which is read in
//! order; the line program behind it isn't read. Paths are borrowed from the file.
#![tactic(auto)]

mod files;
mod formats;
mod found;
mod header;
mod hits;
mod names;
mod place;
mod run;
mod source;
mod tables;
mod unit_files;

pub use found::{FileHit, FileName};
pub use hits::list;
pub use unit_files::table;
