//! What is written as an index of a program is read as an index that answers as the program does: laws over the definitions of
//! what is written and of what is read, which are those of index_model. Each law is the contract of a function that does nothing.
#![tactic(auto)]

mod gdb;
mod names;

pub use gdb::{gdb_elements_are_apart, gdb_index_reads_alike};
pub use names::{hits_lead_to_entries, written_names_read_alike};
