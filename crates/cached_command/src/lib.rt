//! `cached`: the answer of the index of a program, which is kept by the program's build-id and read again where it is there.
#![tactic(auto)]

mod ask;
mod cached;
mod kept;
mod place;
mod save;
mod tell;

pub use cached::cached_file;
