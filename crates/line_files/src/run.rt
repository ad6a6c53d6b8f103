//! The files of a run of units with a name.

ghost use Rattle.std.specs.Prelude.{◌≡◌, ◌+◌, ◌<◌, ◌≤◌, ◌++◌, Some, codes, drop, length, map, slice_get, OnOk};
ghost use Rattle.std.specs.Option.{ForSome};
ghost use Rattle.file_image.specs.Front.{with_front};
ghost use Rattle.index_model.specs.declared.unit.Unit.{Unit as UnitHeader};
ghost use Rattle.index_model.specs.Gives.{Gives};
ghost use Rattle.index_model.specs.Meaning.{at_place};
ghost use Rattle.index_model.specs.Sections.{section_bytes};
ghost use Rattle.reach_model.specs.LineTables.{files_at};
ghost use Rattle.line_files.specs.Ahead.{ahead};
ghost use Rattle.line_files.specs.Found.{hits_seen};
ghost use Rattle.entry_scan.specs.TablesAtOffsets.{IsAtOffset};
ghost use Rattle.line_files.specs.Runs.{hits_between, in_unit, matches, unit_hits_by, IsLast, IsRun};

use crate::files::FilesLeft;
use crate::found::FileHit;
use crate::names::is_match;
use crate::place::{line_place, unit_at};
use entry_scan::AbbrevTable;
use file_image::{Image, Sections};
use ix_base::{Cursor, NoMemory, Stop};
use reading_limit::ReadingLimit;
use std::alloc::Global;

// How many times the bytes of `.debug_abbrev` and `.debug_line`, and how many bytes beside, may be the bytes of the tables that a run
// reads. Those of a program that a compiler and a linker made don't overlap, so it reads each byte once.
const READINGS: u64 = 64;

const READ_BESIDE: u64 = 1 << 20;

/// The table that was read last: where it stands, and how many files were found before it.
#[derive(Clone, Copy)]
pub(crate) struct Last {
    pub place: u64,
    pub first: usize,
}

/// The files that were found in the units so far, and what the next unit may have in common with the one before.
#[derive(Drop)]
pub(crate) struct FilesSoFar<'n, 'f> {
    name: &'n [u8],
    hits: Vec<FileHit<'f>>,
    last: Option<Last>,
    at_hand: Option<AbbrevTable>,
}

// Adds the files of a unit's table with this name.
fn add_matches<'f>(
    hits: &mut Vec<FileHit<'f>>,
    mut files: FilesLeft<'_, 'f>,
    name: &[u8],
    unit: u32,
) -> Result<(), Stop>
    ensures { Gives (λ _. hits_seen hits.new.items) result (with_front (hits_seen hits.old.items) (matches unit name.now (ahead files.entry))) }
{
    'files: while let Some(file) = files.next()? {
        if is_match(name, file.name) {
            hits.push(FileHit { unit, file })?;
        }
    }
    Ok(())
}

// Adds the files from an index on once more, for another unit.
fn repeat(hits: &mut Vec<FileHit<'_>>, first: usize, unit: u32) -> Result<(), NoMemory>
    requires { first ≤ length hits.old.items }
    ensures { OnOk result (hits_seen hits.new.items ≡ hits_seen hits.old.items ++ map (in_unit unit) (drop first (hits_seen hits.old.items))) }
{
    let end = hits.len();
    'hits: for index in first..end {
        let file = hits[index].file;
        hits.push(FileHit { unit, file })?;
    }
    Ok(())
}

impl<'n, 'f> FilesSoFar<'n, 'f> {
    // Adds the files of the table at a place for a unit, by its number and its joint offset. A table that was read for the unit
    // before isn't read again.
    fn add_table(
        &mut self,
        sections: &Sections<'f>,
        unit: u32,
        start: u64,
        place: u64,
    ) -> Result<(), Stop>
        requires { IsLast sections.now self.old.name.now (hits_seen self.old.hits.items) self.old.last }
        ensures value { Gives (λ _. hits_seen self.new.hits.items) result (with_front (hits_seen self.old.hits.items) (matches unit self.old.name.now (at_place start (files_at sections.now place)))) }
        ensures last { OnOk result (IsLast sections.now self.new.name.now (hits_seen self.new.hits.items) self.new.last) }
        ensures others { self.new ≡ record self.old { hits = self.new.hits; last = self.new.last } }
    {
        let first = self.hits.len();
        match self.last {
            Some(last) if last.place == place => repeat(&mut self.hits, last.first, unit)?,
            _ => {
                let files = FilesLeft::open(sections, start, place)?;
                add_matches(&mut self.hits, files, self.name, unit)?;
            }
        }
        self.last = Some(Last { place, first });
        Ok(())
    }

    // Adds the files of the unit with this number.
    fn add_unit(&mut self, alloc: Global, image: &Image<'f>, number: u32) -> Result<(), Stop>
        requires within { number < length image.now.units }
        requires run { IsRun image.now.sections self.old }
        ensures value { (u : UnitHeader) → slice_get image.now.units number ≡ Some u → Gives (λ _. hits_seen self.new.hits.items) result (with_front (hits_seen self.old.hits.items) (unit_hits_by image.now.sections self.old.name.now (number, u))) }
        ensures run { OnOk result (IsRun image.now.sections self.new) }
        ensures name { self.new.name ≡ self.old.name }
    {
        let start = unit_at(image, number as usize).start;
        match line_place(alloc, image, number as usize, &mut self.at_hand)? {
            Some(place) => self.add_table(image.sections(), number, start, place),
            None => Ok(()),
        }
    }
}

// How many bytes of tables a run may read.
fn limit_for(image: &Image<'_>) -> ReadingLimit {
    let abbreviations = image.sections().debug_abbrev().len() as u64;
    let lines = image.sections().get(b".debug_line").len() as u64;
    let all = abbreviations.saturating_add(lines);
    ReadingLimit::of(all.saturating_mul(READINGS).saturating_add(READ_BESIDE))
}

// The tables that were read last.
#[derive(Clone, Copy)]
struct LastRead {
    // Where the table of abbreviations stands.
    abbreviations: Option<u64>,
    // Where the table of lines stands.
    lines: Option<u64>,
}

impl<'n, 'f> FilesSoFar<'n, 'f> {
    fn last_read(&self) -> LastRead {
        LastRead {
            abbreviations: match &self.at_hand {
                Some(table) => Some(table.offset),
                None => None,
            },
            lines: match self.last {
                Some(last) => Some(last.place),
                None => None,
            },
        }
    }

    // How many bytes the tables have that were read behind others.
    fn read_behind(&self, image: &Image<'_>, before: LastRead) -> u64 {
        let now = self.last_read();
        let mut bytes: u64 = 0;
        if now.abbreviations != before.abbreviations
            && let Some(table) = &self.at_hand
        {
            bytes = table.abbrevs.least_bytes();
        }
        if now.lines != before.lines
            && let Some(place) = now.lines
        {
            bytes = bytes.saturating_add(length_of_lines(image, place));
        }
        bytes
    }
}

// How many bytes the table of lines at a place says that it has.
fn length_of_lines(image: &Image<'_>, place: u64) -> u64 {
    let lines = image.sections().get(b".debug_line");
    let at = place.min(lines.len() as u64) as usize;
    match Cursor::new(lines, at).initial_length() {
        Some(initial) => initial.length,
        None => 0,
    }
}

/// The files with this name in the units from a number on up to another.
pub(crate) fn hits_in_run<'f>(
    alloc: Global,
    image: &Image<'f>,
    name: &[u8],
    from: u32,
    to: u32,
) -> Result<Vec<FileHit<'f>>, Stop>
    requires { to ≤ length image.now.units }
    ensures { Gives (λ v. hits_seen v.items) result (hits_between image.now name.now from to) }
{
    let mut run = FilesSoFar {
        name,
        hits: Vec::new(alloc),
        last: None,
        at_hand: None,
    };
    let mut to_read = limit_for(image);
    'units: for number in from..to {
        let before = run.last_read();
        run.add_unit(alloc, image, number)?;
        to_read
            .take(run.read_behind(image, before))
            .ok_or(NoMemory)?;
    }
    let FilesSoFar { hits, .. } = run;
    Ok(hits)
}
