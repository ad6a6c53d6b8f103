//! What the program does beside its commands: it takes the places of closed streams, checks its words by the system, remembers what was
//! written, and says on standard error how a command ended.
#![tactic(auto)]

mod lines;
mod said;
mod section;
mod streams;
mod words;

pub use lines::Remembering;
pub use said::{answer, say_end, stop};
pub use streams::take_closed;
pub use words::{NotBegun, checked_words};
