//! Small programs and indexes that the tests go through, each once.
//!
//! Nearly all are those of rows in rows/vectors. tools/test_files.py writes the constants, and says which row is which.
#![tactic(auto)]

pub mod generated;
pub mod indexes;
pub mod programs;
