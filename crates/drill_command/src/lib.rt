//! `drill`: a program that a seed makes, and how large it and its indexes are.
#![tactic(auto)]

mod drill;
mod totals;

pub use drill::run_drill;
