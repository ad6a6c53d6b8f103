//! The commands that answer from one index: `ask` builds that of a file, and `look` reads one that was stored.
#![tactic(auto)]

mod ask;
mod names;

pub use ask::ask_file;
pub use names::{NamesLook, look_names};
