//! The grammar of `gdbix`: the command that the words of a command line ask for.
#![tactic(auto)]

mod drill_words;
mod index_words;
mod kept_words;
mod number;
mod options;
mod session_words;
mod table_words;
mod words;

pub use drill_words::Drill;
pub use index_words::Index;
pub use kept_words::Cached;
pub use session_words::{Race, Serve};
pub use table_words::{Aranges, Files};
pub use words::{Ask, Command, LookGdb, LookNames, parse_command};
