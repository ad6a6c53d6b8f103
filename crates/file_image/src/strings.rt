//! The text of a value.

ghost use Rattle.std.specs.Prelude.{◌≡◌, ◌≤◌, length, drop, option_map};
ghost use Rattle.index_model.specs.Gives.{GivesAlways};
ghost use Rattle.index_model.specs.Strings.{bounded, string_at, str_offset, text_of};
ghost use Rattle.index_model.specs.FormSeen.{seen};
ghost use Rattle.file_image.specs.TextLimits.{AreSound, tested};

use crate::sections::Sections;
use index_model::Value;
use ix_base::code::{BAD_STRING, NAME_TOO_LONG, NO_BASE};
use ix_base::{Cursor, MAX_STRING};

// A cursor at a place of a section. Behind the section's end there is nothing to read.
fn cursor_at<'a>(bytes: &'a [u8], at: u64) -> Cursor<'a>
    ensures { result.rest ≡ drop at bytes.now }
{
    let at = at.min(bytes.len() as u64);
    Cursor::new(bytes, at as usize)
}

// A string within the limit. An empty one is no text.
#[tactic(auto, unfolding(index_model::specs::Strings::bounded))]
fn within_limit<'a>(text: &'a [u8]) -> Result<Option<&'a [u8]>, u8>
    ensures { GivesAlways (λ t. option_map (λ bytes. bytes.now) t) result (bounded text.now) }
{
    if text.len() as u64 > MAX_STRING {
        return Err(NAME_TOO_LONG);
    }
    if text.is_empty() {
        Ok(None)
    } else {
        Ok(Some(text))
    }
}

// The string at an offset of a section.
#[tactic(auto, unfolding(index_model::specs::Strings::string_at))]
fn string_in<'a>(bytes: &'a [u8], at: u64) -> Result<Option<&'a [u8]>, u8>
    ensures { GivesAlways (λ t. option_map (λ bytes. bytes.now) t) result (string_at bytes.now at) }
{
    let text = cursor_at(bytes, at).zstr().ok_or(BAD_STRING)?;
    within_limit(text)
}

// The offset into `.debug_str` that stands at an index behind the base.
#[tactic(auto, unfolding(index_model::specs::Strings::str_offset))]
fn indexed_offset(
    sections: &Sections<'_>,
    base: Option<u64>,
    wide: bool,
    index: u64,
) -> Result<u64, u8>
    ensures { GivesAlways (λ n. n) result (str_offset sections.now base wide index) }
{
    let base = base.ok_or(NO_BASE)?;
    let size = if wide { 8 } else { 4 };
    let at = base.saturating_add(index.saturating_mul(size));
    Ok(
        cursor_at(sections.debug_str_offsets(), at)
            .offset(wide)
            .ok_or(BAD_STRING)?,
    )
}

/// The text of a value in a unit whose offsets have 8 bytes if `wide`, else 4. `base` is the unit's offset into
/// `.debug_str_offsets`, where its root has one. None is given exactly where the value isn't of a string form or the string
/// is empty.
///
/// The error is a code of `ix_base::code`: 13 where an offset or an index passes its section or no zero ends the string, 14
/// where an index has no base, 24 where the string has more than 1,048,576 bytes.
#[tactic(auto, unfolding(index_model::specs::Strings::text_of))]
pub fn text<'f>(
    sections: &Sections<'f>,
    base: Option<u64>,
    wide: bool,
    value: &Value<'f>,
) -> Result<Option<&'f [u8]>, u8>
    ensures { GivesAlways (λ t. option_map (λ bytes. bytes.now) t) result (text_of sections.now base wide (seen value.now)) }
{
    match *value {
        Value::Inline(text) => within_limit(text),
        Value::Str(at) => string_in(sections.debug_str(), at),
        Value::LineStr(at) => string_in(sections.debug_line_str(), at),
        Value::StrIndex(index) => {
            let at = indexed_offset(sections, base, wide, index)?;
            string_in(sections.debug_str(), at)
        }
        _ => Ok(None),
    }
}

// Whether the string at an offset of a section is sound. The strings at offsets below the limit are.
fn test_in(bytes: &[u8], limit: u64, at: u64) -> Result<(), u8>
    requires { AreSound bytes.now limit }
    ensures { GivesAlways (λ done. done) result (tested (string_at bytes.now at)) }
{
    if at < limit {
        return Ok(());
    }
    match string_in(bytes, at) {
        Ok(_) => Ok(()),
        Err(code) => Err(code),
    }
}

/// Whether the text of a value is sound: the same as `text`, where the text isn't asked for. Most are told by one comparison.
#[tactic(auto, unfolding(index_model::specs::Strings::text_of))]
pub fn test_text(
    sections: &Sections<'_>,
    base: Option<u64>,
    wide: bool,
    value: &Value<'_>,
) -> Result<(), u8>
    ensures { GivesAlways (λ done. done) result (tested (text_of sections.now base wide (seen value.now))) }
{
    let limits = sections.limits();
    match *value {
        Value::Inline(text) => match within_limit(text) {
            Ok(_) => Ok(()),
            Err(code) => Err(code),
        },
        Value::Str(at) => test_in(sections.debug_str(), limits.str, at),
        Value::LineStr(at) => test_in(sections.debug_line_str(), limits.line_str, at),
        Value::StrIndex(index) => {
            let at = indexed_offset(sections, base, wide, index)?;
            test_in(sections.debug_str(), limits.str, at)
        }
        _ => Ok(()),
    }
}
