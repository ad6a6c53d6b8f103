//! What is written as an index of what gdb lists of a program is read as an index that gives it: a law over the definitions of what is
//! written and of what is read, which are those of gdb_index and index_model. It is the contract of a function that does nothing.
#![tactic(auto)]

mod laws;

pub use laws::listed_index_reads_alike;
