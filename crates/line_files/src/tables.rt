//! The tables of directories and files: in version 5 with a layout of their own, before it lists that an empty string ends (DWARF
//! 5, section 6.2.4.1; DWARF 4, section 6.2.4).

ghost use Rattle.std.specs.Prelude.{◌≡◌, option_map};
ghost use Rattle.index_model.specs.Gives.{GivesAlways};
ghost use Rattle.reach_model.specs.LineTables.{entries_at, layout_at, old_directory, old_file};
ghost use Rattle.line_files.specs.Entries.{directories_end, entry_seen, layout_seen, place_behind};

use crate::formats::{Formats, read_formats};
use crate::source::{ListedPath, PathSections};
use ix_base::Cursor;
use reach_model::code::LINES_FIELDS;

/// How a table is laid out: its formats, and how many entries it has.
#[derive(Drop)]
pub(crate) struct Layout {
    pub formats: Formats,
    pub count: u64,
}

/// The layout at the cursor. Without formats there are no entries.
#[tactic(auto, unfolding(reach_model::specs::LineTables::layout_at))]
pub(crate) fn read_layout(cursor: &mut Cursor<'_>) -> Result<Layout, u8>
    ensures { GivesAlways (λ l. (layout_seen l, cursor.new)) result (layout_at cursor.old) }
{
    let formats = read_formats(cursor)?;
    let count = cursor.uleb().ok_or(LINES_FIELDS)?;
    if formats.is_empty() && count != 0 {
        return Err(LINES_FIELDS);
    }
    Ok(Layout { formats, count })
}

impl<'f> PathSections<'_, 'f> {
    /// Passes a table.
    pub fn pass_entries(&self, cursor: &mut Cursor<'f>) -> Result<(), u8>
        ensures { GivesAlways (λ _. cursor.new) result (place_behind (entries_at self.now.sections.now self.now.wide cursor.old)) }
    {
        let layout = read_layout(cursor)?;
        'entries: for _ in 0..layout.count {
            self.entry(layout.formats.as_slice(), cursor)?;
        }
        Ok(())
    }
}

// The directory at the cursor, None at the end of the directories.
fn read_directory<'f>(cursor: &mut Cursor<'f>) -> Result<Option<&'f [u8]>, u8>
    ensures { GivesAlways (λ d. (option_map (λ text. text.now) d, cursor.new)) result (old_directory cursor.old) }
{
    let directory = cursor.zstr().ok_or(LINES_FIELDS)?;
    if directory.is_empty() {
        Ok(None)
    } else {
        Ok(Some(directory))
    }
}

/// Passes the directories of a table up to version 4.
pub(crate) fn pass_directories(cursor: &mut Cursor<'_>) -> Result<(), u8>
    ensures { GivesAlways (λ _. cursor.new) result (directories_end cursor.old) }
{
    // There are fewer of them than bytes.
    'directories: for _ in 0..cursor.rest().len() {
        let Some(_) = read_directory(cursor)? else {
            return Ok(());
        };
    }
    Err(LINES_FIELDS)
}

/// The file at the cursor in a table up to version 4, None at the end of the table. Its time and its length aren't kept.
#[tactic(auto, unfolding(reach_model::specs::LineTables::old_file_named))]
pub(crate) fn read_old_file<'f>(cursor: &mut Cursor<'f>) -> Result<Option<ListedPath<'f>>, u8>
    ensures { GivesAlways (λ e. (option_map entry_seen e, cursor.new)) result (old_file cursor.old) }
{
    let name = cursor.zstr().ok_or(LINES_FIELDS)?;
    if name.is_empty() {
        return Ok(None);
    }
    let dir = cursor.uleb().ok_or(LINES_FIELDS)?;
    cursor.uleb().ok_or(LINES_FIELDS)?;
    cursor.uleb().ok_or(LINES_FIELDS)?;
    Ok(Some(ListedPath { name, dir }))
}
