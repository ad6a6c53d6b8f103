//! A program with sections added has these sections, and those that it had: laws over the definitions. Each law is the contract of a
//! function that does nothing.
#![tactic(auto)]

mod meaning;
mod sections;

pub use meaning::added_programs_mean_the_same;
pub use sections::{added_sections_are_found, sections_are_added};
