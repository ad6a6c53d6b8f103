//! The forms of names: Ada names as GNAT codes them, and names behind their scopes (DWARF 5, section 2.13.2).
//!
//! A name is measured without memory, then written once into room of its known length.
#![tactic(auto)]

mod decoding;
mod parts;
mod pieces;
mod scope;
mod shortened;

pub use decoding::{ada, ada_length, ada_tail};
pub use scope::{scoped, scoped_length};
