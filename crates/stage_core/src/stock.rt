//! What is kept of the closed kinds for those to come.

use crate::task::{Links, Shards};

/// The open kind, with what the kinds behind it need.
#[derive(Drop)]
pub(crate) enum Stock<'f> {
    Scan,
    Link(Shards<'f>),
    Main(Shards<'f>, Links<'f>),
    Name,
    Merge,
    Write,
    /// All kinds are closed.
    Nothing,
}
