//! Which strings of `.debug_str` are short, told without reading them.

use ix_base::NoMemory;
use memchr::memchr;
use std::alloc::Global;

// How many bytes a block has.
const BLOCK: usize = 2048;

/// Of each block of 2,048 bytes whether a zero stands in it. A string is over before the block behind its own is, where a zero stands
/// in that one: so it has fewer than 4,096 bytes.
#[derive(Drop)]
pub(crate) struct ShortStrings {
    have_zeros: Vec<bool>,
}

impl ShortStrings {
    /// Those among these strings.
    pub(crate) fn of(alloc: Global, strings: &[u8]) -> Result<ShortStrings, NoMemory> {
        let mut have_zeros = Vec::with_capacity(alloc, strings.len() / BLOCK + 1)?;
        for block in strings.chunks(BLOCK) {
            have_zeros.push(memchr(0, block).is_some())?;
        }
        Ok(ShortStrings { have_zeros })
    }

    /// Whether the string at an offset is told to be short.
    #[inline(always)]
    pub(crate) fn is_short(&self, at: u64) -> bool {
        let next = at / (BLOCK as u64) + 1;
        matches!(self.have_zeros.get(next as usize), Some(true))
    }
}
