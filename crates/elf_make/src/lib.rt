//! Puts 64-bit ELF files together from sections (System V gABI, chapters "ELF Header" and "Sections").
//!
//! The files are little-endian, for x86-64, and have no segments: they hold what a reader of sections looks at. `make` generates
//! programs of any number of units, for drills.
#![tactic(auto)]

mod body;
mod codes;
mod generated;
mod header;
mod laws;
mod layout;
mod packer;
mod places;
mod section;
mod units;
mod values;

pub use generated::make;
pub use laws::declarations_stand_where_they_are_specified;
pub use packer::Packer;
pub use section::Section;
