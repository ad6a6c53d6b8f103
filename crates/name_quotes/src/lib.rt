//! How names of a file are written in lines: as they stand in it, or with quotes in place of the bytes that a line or a terminal
//! takes for its own.
//!
//! A quoted name has `\xHH` in place of each byte below 0x20, of 0x7F and of the backslash, with two lower-case hexadecimal
//! digits, as C and `printf` read them. So it is one line, and it can be read back.
#![tactic(auto)]

mod laws;
mod quote;

pub use laws::{a_quoted_name_is_one_line, a_quoted_name_reads_back};
pub use quote::{Spelling, escape, is_shown};
