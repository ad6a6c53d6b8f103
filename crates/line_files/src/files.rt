//! The files of a line table, one after the other.

ghost use Rattle.std.specs.Prelude.{◌≡◌, ◌-◌, ◌<◌, option_map, IfOk, IfSome};
ghost use Rattle.index_model.specs.Gives.{GivesAlways};
ghost use Rattle.index_model.specs.Meaning.{at_place};
ghost use Rattle.reach_model.specs.LineTables.{files_at, new_files, old_files};
ghost use Rattle.line_files.specs.Ahead.{ahead, entry_left, with_numbers, GivesAhead, GivesLeft, GivesNext};
ghost use Rattle.line_files.specs.Entries.{entry_seen};

use crate::formats::Formats;
use crate::found::FileName;
use crate::header::read_header;
use crate::source::{ListedPath, PathSections};
use crate::tables::{pass_directories, read_layout, read_old_file};
use file_image::Sections;
use ix_base::{Cursor, Fault};
use reach_model::code::LINES_FIELDS;

/// How the entries of a table of files are written.
#[derive(Drop)]
pub(crate) enum FileTableKind {
    /// Up to an empty path, as versions 2 to 4 have them.
    UpToEnd,
    /// By formats, as version 5 has them.
    ByFormats(Formats),
}

/// The files of a unit's line table that are still to come.
#[derive(Drop)]
pub(crate) struct FilesLeft<'s, 'f> {
    /// The unit's joint offset.
    start: u64,
    source: PathSections<'s, 'f>,
    kind: FileTableKind,
    cursor: Cursor<'f>,
    /// The index of the next file.
    next: u64,
    /// All files have lower indexes.
    end: u64,
}

impl<'s, 'f> FilesLeft<'s, 'f> {
    /// The files of the table at a place of `.debug_line`, for the unit with this joint offset.
    pub fn open(
        sections: &'s Sections<'f>,
        start: u64,
        place: u64,
    ) -> Result<FilesLeft<'s, 'f>, Fault>
        ensures { GivesAhead result (at_place start (files_at sections.now place)) }
    {
        match FilesLeft::at(sections, start, place) {
            Ok(files) => Ok(files),
            Err(code) => Err(Fault { code, at: start }),
        }
    }

    // The same, or the code of what is first wrong before the files.
    #[tactic(auto, unfolding(reach_model::specs::LineTables::files_at, reach_model::specs::LineTables::files_behind))]
    fn at(sections: &'s Sections<'f>, start: u64, place: u64) -> Result<FilesLeft<'s, 'f>, u8>
        ensures { GivesLeft start result (files_at sections.now place) }
    {
        let header = read_header(sections.get(b".debug_line"), place)?;
        let source = PathSections {
            sections,
            wide: header.wide,
        };
        if header.version == 5 {
            FilesLeft::by_formats(start, source, header.tables)
        } else {
            FilesLeft::up_to_end(start, source, header.tables)
        }
    }

    // The files of a table up to version 4, behind its fields.
    #[tactic(auto, unfolding(reach_model::specs::LineTables::old_files))]
    fn up_to_end(
        start: u64,
        source: PathSections<'s, 'f>,
        mut cursor: Cursor<'f>,
    ) -> Result<FilesLeft<'s, 'f>, u8>
        ensures { GivesLeft start result (with_numbers 1 (old_files cursor.entry)) }
    {
        pass_directories(&mut cursor)?;
        // There are fewer of them than bytes.
        let end = 1 + cursor.rest().len() as u64;
        Ok(FilesLeft {
            start,
            source,
            kind: FileTableKind::UpToEnd,
            cursor,
            next: 1,
            end,
        })
    }

    // The files of a table of version 5, behind its fields.
    #[tactic(auto, unfolding(reach_model::specs::LineTables::new_files, reach_model::specs::LineTables::entries_at))]
    fn by_formats(
        start: u64,
        source: PathSections<'s, 'f>,
        mut cursor: Cursor<'f>,
    ) -> Result<FilesLeft<'s, 'f>, u8>
        ensures { GivesLeft start result (with_numbers 0 (new_files source.entry.sections.now source.entry.wide cursor.entry)) }
    {
        source.pass_entries(&mut cursor)?;
        let layout = read_layout(&mut cursor)?;
        Ok(FilesLeft {
            start,
            source,
            kind: FileTableKind::ByFormats(layout.formats),
            cursor,
            next: 0,
            end: layout.count,
        })
    }

    // The next entry, None behind the last.
    fn entry(&mut self) -> Result<Option<ListedPath<'f>>, u8>
        ensures value { GivesAlways (λ e. (option_map entry_seen e, self.new.cursor)) result (entry_left self.old) }
        ensures others { self.new ≡ record self.old { cursor = self.new.cursor } }
        ensures within { IfOk result (λ e. IfSome e (λ _. self.old.next < self.old.end)) }
    {
        match &self.kind {
            FileTableKind::UpToEnd => {
                if self.next >= self.end {
                    return Err(LINES_FIELDS);
                }
                read_old_file(&mut self.cursor)
            }
            FileTableKind::ByFormats(formats) => {
                if self.next >= self.end {
                    return Ok(None);
                }
                let entry = self.source.entry(formats.as_slice(), &mut self.cursor)?;
                Ok(Some(entry))
            }
        }
    }

    /// The next file, None behind the last.
    pub fn next(&mut self) -> Result<Option<FileName<'f>>, Fault>
        ensures value { GivesNext (ahead self.old) (ahead self.new) result }
        ensures fewer { IfOk result (λ file. IfSome file (λ _. self.new.end - self.new.next < self.old.end - self.old.next)) }
    {
        let index = self.next;
        match self.entry() {
            Err(code) => Err(Fault {
                code,
                at: self.start,
            }),
            Ok(None) => Ok(None),
            Ok(Some(entry)) => {
                self.next = index + 1;
                Ok(Some(FileName {
                    index,
                    dir: entry.dir,
                    name: entry.name,
                }))
            }
        }
    }
}
