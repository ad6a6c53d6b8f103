//! Adds sections to a program file (System V gABI, chapter 4, "ELF Header", "Sections" and "String Table"): their bytes, the names'
//! section with their names and the section headers are placed behind the bytes of the program, which stay, but for the fields of the
//! ELF header that say where the section headers are.
#![tactic(auto)]

mod adder;
mod elf_header;
mod fields;
mod names;
mod new_headers;
mod numbers;
mod old_headers;
mod parts;
mod pieces;

pub use adder::{Adder, NoRoom};
