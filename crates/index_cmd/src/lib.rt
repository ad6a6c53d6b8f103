//! The commands of `gdbix`: from the words of a command line to what is written and the status.
#![tactic(auto)]

mod about;
mod line;
mod perform;
mod say;
mod task;
mod top;

pub use top::run;
