//! The numbers of DWARF 5 that the crates above read or write, by the standard's names.
#![tactic(auto)]
#![allow(non_upper_case_globals)]

pub mod attribute;
pub mod form;
pub mod index_attribute;
pub mod language;
pub mod tag;
