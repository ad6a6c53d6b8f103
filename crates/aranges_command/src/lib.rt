//! `aranges`: whether the address table of a program agrees with the ranges of its units.
#![tactic(auto)]

mod aranges;
mod line;

pub use aranges::aranges_file;
