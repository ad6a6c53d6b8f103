//! `files`: the units of a program whose line tables name a source file.
#![tactic(auto)]

mod files;
mod text;

pub use files::list_files;
