//! Where a text stands in the file.

ghost use Rattle.std.specs.Prelude.{◌≡◌, IfSome, IsSome, drop, option_map};
ghost use Rattle.index_model.specs.Meaning.{value_of};
ghost use Rattle.index_model.specs.Strings.{bounded, some_text};
ghost use Rattle.index_model.specs.Leaves.{StandsAt, string_of, text_at, text_of};

use ix_base::{Cursor, MAX_STRING};

/// The bytes in which texts stand: those of a file, and its section `.debug_str`.
#[derive(Clone, Copy)]
pub struct TextBytes<'f> {
    pub file: &'f [u8],
    pub strings: &'f [u8],
}

/// Where a text stands in the file, if there is one.
#[derive(Clone, Copy)]
pub(crate) struct TextInFile {
    /// Whether there is a text.
    pub given: bool,
    pub at: u32,
    pub length: u16,
}

impl TextInFile {
    /// The place of a text that is thought to stand there. None where it doesn't, or where a number is too large.
    pub fn of(file: &[u8], text: Option<&[u8]>, at: u64) -> Option<TextInFile>
        ensures text { IfSome result (λ p. text_of file.now p ≡ option_map (λ t. t.now) text.entry) }
        ensures stands { StandsAt file.now text.entry at → IsSome result }
    {
        let Some(text) = text else {
            return Some(TextInFile {
                given: false,
                at: 0,
                length: 0,
            });
        };
        let at = u32::try_from(at).ok()?;
        let length = u16::try_from(text.len()).ok()?;
        match text_at(file, at, length) {
            Some(found) if found == text => Some(TextInFile {
                given: true,
                at,
                length,
            }),
            _ => None,
        }
    }
}

/// The text of this length that begins there, if the file has so many bytes.
pub(crate) fn text_at(file: &[u8], at: u32, length: u16) -> Option<&[u8]>
    ensures { option_map (λ t. t.now) result ≡ text_at file.now at length }
{
    let from = at as usize;
    file.get(from..from + length as usize)
}

/// The string that begins at an offset of `.debug_str`, if a zero ends it and it isn't too long. An empty one is none.
#[tactic(auto, unfolding(crate::specs::Strings::string_at))]
pub(crate) fn string_of(strings: &[u8], at: u32) -> Option<&[u8]>
    ensures { option_map (λ t. t.now) result ≡ string_of strings.now at }
{
    let text = cursor_at(strings, at as usize).zstr()?;
    within_limit(text)
}

// A cursor at an offset. Behind the end there is nothing to read.
fn cursor_at(strings: &[u8], at: usize) -> Cursor<'_>
    ensures { result.rest ≡ drop at strings.now }
{
    let at = at.min(strings.len());
    Cursor::new(strings, at)
}

// A string within the limit. An empty one is no text.
#[tactic(auto, unfolding(crate::specs::Strings::bounded))]
fn within_limit(text: &[u8]) -> Option<&[u8]>
    ensures { option_map (λ t. t.now) result ≡ some_text (value_of (bounded text.now)) }
{
    if text.len() as u64 > MAX_STRING || text.is_empty() {
        None
    } else {
        Some(text)
    }
}
