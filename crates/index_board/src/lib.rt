//! The board of a build: workers draw and finish jobs on it in turns, and readers ask it from threads of their own.
//!
//! It is the stage lock over the core. Each thread has a pass of its own, or a reader, which is a pass with the parts that it
//! keeps. A reader waits for nobody unless it calls `fetch`, `query` or `wait`. docs/BOARD.md shows which thread may change
//! what.
#![tactic(auto)]

mod board;
mod kept;
mod poll;
mod reader;
mod reply;

pub use board::{Board, Pass};
pub use poll::Poll;
pub use reader::Reader;
pub use reply::need_of;
