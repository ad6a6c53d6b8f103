//! Names of Ada as gdb reads and lists them.
//!
//! GNAT writes the names of packages and subprograms joined by `__`, and puts marks and numbers around and between them. gdb
//! decodes such a name, `pkg__proc__2` as `pkg.proc`, and lists it in an index encoded again, without what fell:
//! `pkg__proc` (gdb/ada-lang.c, `ada_decode` without operators and wide characters, and `ada_encode`).
//!
//! Operators in quotes and letters beyond ASCII stand as they are: gdb writes these as GNAT codes them. And behind some marks at the
//! end of a name gdb copies a byte that it has cut off, which isn't done here.
//!
//! First goes what stands around the name (`affixes`), then what stands at its end (`ends`); what is left is read from its first
//! letter on, part by part, without the marks between the parts (`marks`, `parts`). Each place is looked at a number of times
//! that doesn't grow with the name: the digits behind a mark, the letters before one and those behind a bracket are
//! looked at from that mark or bracket alone.
#![tactic(auto)]

mod affixes;
mod bytes;
mod decoding;
mod encoding;
mod ends;
mod laws;
mod marks;
mod parts;

pub use decoding::decode;
pub use encoding::encode;
pub use laws::plain_names_come_back;
