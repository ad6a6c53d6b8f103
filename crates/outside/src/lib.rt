//! What a program reads and writes outside itself: a store of files, an input and an output, each as a
//! trait with counts of faults. And a gate, which is told where the program's threads are.
//!
//! A call fails only where its count of faults rose in it, or stands at the last value of its type.
//! A shelf, a source or a sink tells what it holds where that is known: the forms in memory tell it,
//! files and standard streams don't. Clauses on content hold where it is told.
#![tactic(auto)]

mod answers;
mod device;
mod failure;
mod file_shelf;
mod gate;
mod mem_shelf;
mod mem_sink;
mod mem_source;
mod replace;
mod same_file;
mod shelf;
mod sink;
mod source;
mod stream_sink;
mod stream_source;
mod test_gate;

pub use failure::{Cause, Failure, kind_words, system_words};
pub use file_shelf::FileShelf;
pub use gate::{Gate, NoGate};
pub use mem_shelf::{FailingStore, Leaves, MemShelf};
pub use mem_sink::MemSink;
pub use mem_source::MemSource;
pub use same_file::is_same_file;
pub use shelf::{Failed, Shelf};
pub use sink::{Sink, write_all};
pub use source::Source;
pub use stream_sink::{Printed, StreamSink};
pub use stream_source::StreamSource;
pub use test_gate::{GateEvent, Hold, MAX_LOOKS, TestGate};
