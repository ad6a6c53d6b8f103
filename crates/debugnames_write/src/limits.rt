//! How large an index and the strings of a program may become.

ghost use Rattle.std.specs.Prelude.{◌≡◌, ◌+◌, ◌<◌, ◌≤◌};
ghost use Rattle.debugnames_write.specs.Answers.{Answers};

use index_model::{TooLarge, WriteStop};
use ix_base::OrMemory;

/// The bytes of a `.debug_names`. A length of the 32-bit format is below 0xFFFFFFF0 (DWARF 5, section 7.4), and the 4 bytes of
/// the length come on top.
pub(crate) const MAX_INDEX: u64 = 4_294_967_283;

/// The bytes of `.debug_str` with the added ones. An offset there has 4 bytes.
pub(crate) const MAX_STRINGS: u64 = 4_294_967_295;

/// A size that grows, up to a limit.
pub(crate) fn grown(size: u64, more: u64, limit: u64) -> Result<u64, WriteStop>
    ensures { Answers result (λ sum. (sum ≡ size + more) × (sum ≤ limit)) (limit < size + more) }
{
    match size.checked_add(more) {
        Some(sum) => {
            if sum <= limit {
                Ok(sum)
            } else {
                Err(OrMemory::Cause(TooLarge))
            }
        }
        None => Err(OrMemory::Cause(TooLarge)),
    }
}
