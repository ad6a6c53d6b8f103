//! What `gdbix` says on standard error, and its help: one sentence and one remedy for each fault that its lines name by a code, for each
//! status, and for words that aren't in its grammar.
#![tactic(auto)]

mod end;
mod fault;
mod form;
mod help;
mod message;
mod usage;

pub use end::{FilesMeant, StatusText};
pub use fault::{FAULTS, FaultText, PlaceKind, fault_of, row_of};
pub use help::help_for;
pub use message::{Message, Problem, message_for, note_for};
pub use usage::{Usage, usage_of};
