//! `serve` over the bytes of a file: a session over an input, which is answered while the index is built.
#![tactic(auto)]

mod listen;
mod serve;

pub use serve::serve_file;
