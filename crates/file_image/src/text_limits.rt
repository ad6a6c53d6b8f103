//! Up to which place of a section each string is sound, found once.

ghost use Rattle.std.specs.Prelude.{◌≤◌, length, IfSome};
ghost use Rattle.file_image.specs.TextLimits.{AreSound, AreLimits, IsZeroNear};

use ix_base::MAX_STRING;
use memchr::memrchr;

// A string of the greatest length and the zero behind it.
const LONGEST: usize = MAX_STRING as usize + 1;

/// How many places at the front of each section begin a sound string: a zero follows, and no more than 1,048,576 bytes stand
/// before it. Behind these a string may be sound or not.
#[derive(Clone, Copy)]
pub(crate) struct TextLimits {
    pub(crate) str: u64,
    pub(crate) line_str: u64,
}

impl TextLimits {
    /// Those of `.debug_str` and `.debug_line_str`, by their bytes.
    pub(crate) fn of(str: &[u8], line_str: &[u8]) -> TextLimits
        ensures { AreLimits str.now line_str.now result }
    {
        TextLimits {
            str: limit_of(str),
            line_str: limit_of(line_str),
        }
    }
}

// How many places at the front begin a sound string. It takes two looks a mebibyte at most, and most are short.
fn limit_of(bytes: &[u8]) -> u64
    ensures { AreSound bytes.now result }
{
    let mut limit = 0;
    while let Some(zero) = last_zero(bytes, limit) {
        limit = zero + 1;
    }
    limit as u64
}

// The last zero at which a sound string that begins at a place may end.
fn last_zero(bytes: &[u8], at: usize) -> Option<usize>
    requires { at ≤ length bytes.now }
    ensures { IfSome result (IsZeroNear bytes.now at) }
{
    let end = bytes.len().min(at + LONGEST);
    let found = memrchr(0, &bytes[at..end])?;
    Some(at + found)
}
