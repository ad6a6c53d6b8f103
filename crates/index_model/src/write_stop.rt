//! Why no index was written.

use ix_base::OrMemory;

/// The index is longer than its lengths and offsets of 32 bits can say; or, of a `.debug_names`, `.debug_str` would be with the
/// strings that are added to it.
#[derive(Clone, Copy)]
pub struct TooLarge;

/// Why no index was written.
pub type WriteStop = OrMemory<TooLarge>;
