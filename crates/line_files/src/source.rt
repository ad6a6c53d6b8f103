//! The values of entries in tables of version 5 (DWARF 5, sections 6.2.4.1 and 7.5.6).

ghost use Rattle.std.specs.Prelude.{◌≡◌, [], drop};
ghost use Rattle.index_model.specs.FormSeen.{seen};
ghost use Rattle.index_model.specs.Gives.{GivesAlways};
ghost use Rattle.reach_model.specs.LineTables.{new_entry, number_of, path_at, path_of, value_in, with_content};
ghost use Rattle.line_files.specs.Entries.{entry_seen};

use entry_scan::read_value;
use file_image::Sections;
use index_model::Value;
use ix_base::Cursor;
use reach_model::code::{LINES_FIELDS, LINES_PATH};
use reach_model::{Content, Format};

/// The version whose forms tables have.
const VERSION: u16 = 5;

/// An entry of a table: its path, and the number of its directory.
#[derive(Clone, Copy)]
pub(crate) struct ListedPath<'f> {
    pub name: &'f [u8],
    pub dir: u64,
}

/// The sections in which the paths of a table may stand, and whether the table's offsets have 8 bytes.
#[derive(Clone, Copy)]
pub(crate) struct PathSections<'s, 'f> {
    pub sections: &'s Sections<'f>,
    pub wide: bool,
}

// A cursor at a place of a section. Behind the section's end there is nothing to read.
pub(crate) fn cursor_at<'a>(bytes: &'a [u8], at: u64) -> Cursor<'a>
    ensures { result.rest ≡ drop at bytes.now }
{
    let at = at.min(bytes.len() as u64);
    Cursor::new(bytes, at as usize)
}

// The string at an offset of a section.
fn path_at<'a>(bytes: &'a [u8], at: u64) -> Result<&'a [u8], u8>
    ensures { GivesAlways (λ path. path.now) result (path_at bytes.now at) }
{
    match cursor_at(bytes, at).zstr() {
        Some(path) => Ok(path),
        None => Err(LINES_PATH),
    }
}

// The number that a value of a number form is.
fn number_of(value: &Value<'_>) -> u64
    ensures { result ≡ number_of (seen value.now) }
{
    match *value {
        Value::Unsigned(number) => number,
        _ => 0,
    }
}

impl<'f> PathSections<'_, 'f> {
    // The value of a form at the cursor.
    fn value(&self, form: u64, cursor: &mut Cursor<'f>) -> Result<Value<'f>, u8>
        ensures { GivesAlways (λ v. (seen v, cursor.new)) result (value_in self.now.wide form cursor.old) }
    {
        match read_value(self.wide, VERSION, form, 0, cursor) {
            Ok(value) => Ok(value),
            Err(_) => Err(LINES_FIELDS),
        }
    }

    // The path that a value of a string form is.
    #[tactic(auto, unfolding(reach_model::specs::LineTables::path_of))]
    fn path(&self, value: &Value<'f>) -> Result<&'f [u8], u8>
        ensures { GivesAlways (λ path. path.now) result (path_of self.now.sections.now (seen value.now)) }
    {
        match *value {
            Value::Inline(path) => Ok(path),
            Value::Str(at) => path_at(self.sections.get(b".debug_str"), at),
            Value::LineStr(at) => path_at(self.sections.get(b".debug_line_str"), at),
            _ => Err(LINES_PATH),
        }
    }

    // The entry with one more value.
    #[tactic(auto, unfolding(reach_model::specs::LineTables::with_content))]
    fn with_content(
        &self,
        content: Content,
        value: &Value<'f>,
        entry: ListedPath<'f>,
    ) -> Result<ListedPath<'f>, u8>
        ensures { GivesAlways entry_seen result (with_content self.now.sections.now content (seen value.now) (entry_seen entry.entry)) }
    {
        match content {
            Content::Path => Ok(ListedPath {
                name: self.path(value)?,
                dir: entry.dir,
            }),
            Content::Directory => Ok(ListedPath {
                name: entry.name,
                dir: number_of(value),
            }),
            Content::Other => Ok(entry),
        }
    }

    /// The entry at the cursor, by the formats of its table. Where it says no path that is empty, and where it says no
    /// directory that is 0.
    pub fn entry(&self, formats: &[Format], cursor: &mut Cursor<'f>) -> Result<ListedPath<'f>, u8>
        ensures { GivesAlways (λ e. (entry_seen e, cursor.new)) result (new_entry self.now.sections.now self.now.wide formats.now (record { name = []; dir = 0 }) cursor.old) }
    {
        let mut entry = ListedPath { name: &[], dir: 0 };
        for format in formats {
            let value = self.value(format.form, cursor)?;
            entry = self.with_content(format.content, &value, entry)?;
        }
        Ok(entry)
    }
}
