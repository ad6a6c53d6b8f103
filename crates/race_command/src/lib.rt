//! `race` over the bytes of a file: sessions of several readers over a script, while the index is built and after it.
#![tactic(auto)]

mod race;
mod race_end;
mod rounds;
mod runner;
mod script;
mod transcript;

pub use race::race_file;
pub use script::MAX_SCRIPT_BYTES;
pub use transcript::MAX_RACE_BYTES;
