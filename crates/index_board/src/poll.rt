//! What a reader answers at once.

use index_model::Look;

/// The answer to a query by what a reader keeps.
#[derive(Clone, Copy)]
pub enum Poll<'r> {
    /// The reply.
    Done(Look<'r>),
    /// The stage, at which the build has published what the query needs and the reader doesn't keep it yet.
    Fetch(u8),
}
