//! Which index a program file gets, and by which rules its entries are listed.
#![tactic(auto)]

mod form;

pub use form::{GdbVersion, IndexForm};
