//! What the commands of `gdbix` share: how each ended, a file that is read whole, the reply that a command writes, and the answer of a
//! `.gdb_index`.
#![tactic(auto)]

mod file;
mod gdb;
mod reply;
mod status;

pub use file::{Unread, read_file, unread_status};
pub use gdb::{answer_by_gdb, look_gdb};
pub use reply::{ended, refuse, write};
pub use status::{RefusedTable, Status};
