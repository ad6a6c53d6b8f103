//! The entries of a run of units with their qualified names, and the main program (DWARF 5, sections 2.13.2, 3.3.1 and 6.1.1).
#![tactic(auto)]

mod entry;
mod fronts;
mod links;
mod main_program;
mod names;
mod run;
mod sought;
mod tags;

pub use main_program::main_of;
pub use name_forms::ada;
pub use run::run_of;
