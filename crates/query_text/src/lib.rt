//! The lines that ask an index, and the lines that it replies.
//!
//! A query line is `name NAME`, `simple NAME`, `addr HEX`, `main` or `cache`, as this project has it; NAME is a name of the
//! index (DWARF 5, section 6.1.1, look-up by name) and HEX an address (section 6.1.2, look-up by address). A reply is one
//! line, and behind `found COUNT` one line for each entry. So is the answer of an index that was written, where a line says what
//! the index has of an entry. A session answers the query lines of an input, each at one mark. No call here takes memory but
//! `LineBuf::new` and what a look-up of a session shares.
#![tactic(auto)]

mod answer;
mod elements;
mod fault;
mod hex;
mod laws;
mod line_buf;
mod names;
mod query;
mod reply;
mod send;
mod sessions;
mod texts;
mod waiting;

pub use elements::{write_elements, write_index_fault};
pub use fault::SessionFault;
pub use laws::plain_sessions_are_transcripts;
pub use line_buf::LineBuf;
pub use names::write_hits;
pub use query::{Question, parse};
pub use reply::write_reply;
pub use sessions::session;
