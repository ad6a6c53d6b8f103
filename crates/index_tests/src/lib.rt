//! Tests of the crates that read and write indexes, of those that add them to programs and keep them, and of the one that makes programs.
//!
//! One happy path of each public call. The indexes of one small program were written by hand from the GDB manual, "Index Section
//! Format", and from DWARF 5, section 6.1.1. Faults and rare cases are rows in rows/vectors.
#![tactic(auto)]

#[cfg(test)]
mod added;
#[cfg(test)]
mod ends;
#[cfg(test)]
mod kept;
#[cfg(test)]
mod made;
#[cfg(test)]
mod program;
#[cfg(test)]
mod reading;
#[cfg(test)]
mod sorts;
#[cfg(test)]
mod too_large;
#[cfg(test)]
mod writing;
