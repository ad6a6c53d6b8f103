//! The file whose units are listed.

ghost use Rattle.std.specs.Prelude.{◌≡◌, ◌≤◌, length, option_and_then, slice_get, IfOk, Ok};
ghost use Rattle.file_image.specs.Images.{image_of};
ghost use Rattle.gdb_items.specs.Readings.{reading_of};
ghost use Rattle.gdb_entries.specs.Files.{HasProgram};
ghost use Rattle.gdb_scopes.specs.Places.{ForUnit};
ghost use Rattle.gdb_index.specs.Kept.{AreTextsOf};

use crate::names::FileNames;
use file_image::Image;
use gdb_entries::LanguageClass;
use gdb_items::{Reading, readings};
use gdb_scopes::FilePlaces;
use gdb_texts::SpelledTexts;
use index_model::Unit;
use ix_base::{MAX_UNITS, NoMemory};
use reading_limit::ReadingLimit;
use std::alloc::Global;
use std::marker::Model;
use std::thread::Threads;

/// A file without a fault, how gdb reads each of its units, and how it spells names. Contracts see the image of the file.
#[derive(Drop)]
pub(crate) struct ReadFile<'s, 'f> {
    image: &'s Image<'f>,
    readings: Vec<Option<Reading>>,
    texts: SpelledTexts<'s, 'f>,
}

impl<'s, 'f> Model for ReadFile<'s, 'f> {
    ghost use Rattle.file_image.specs.Images.{Image as ImageOf};
    ghost use Rattle.gdb_entries.specs.Files.{HasProgram};
    ghost use Rattle.gdb_scopes.specs.Units.{AreReadingsOf};
    ghost use Rattle.gdb_index.specs.Kept.{AreTextsOf};

    ghost Value = { ImageOf };

    ghost view = { λ e. e.image.now };

    ghost invariant = { λ e. HasProgram e.image.now.file × AreReadingsOf e.image.now.file e.readings.items × AreTextsOf e.image.now.file e.texts };
}

impl<'s, 'f> ReadFile<'s, 'f> {
    /// A file without a fault. The root of each unit is read, and where one is of C++ names are spelled by at most so many threads.
    pub fn of<R: Threads + Sync>(
        rt: &R,
        alloc: Global,
        workers: usize,
        image: &'s Image<'f>,
    ) -> Result<ReadFile<'s, 'f>, NoMemory>
        requires { HasProgram image.now.file }
        ensures { IfOk result (λ file. file ≡ image.now) }
    {
        let readings = readings(alloc, image)?;
        let texts = texts_of(rt, alloc, workers, image, &readings)?;
        Ok(ReadFile {
            image,
            readings,
            texts,
        })
    }

    /// The units, in section order.
    pub fn units(&self) -> &[Unit]
        ensures value { result.now ≡ self.now.units }
        ensures of_file { image_of self.now.file ≡ Ok self.now }
        ensures few { length result.now ≤ MAX_UNITS }
    {
        self.image.units()
    }

    /// The names of the file's items, before any unit is gone over. So many bytes may be put together.
    pub fn names<'r>(&'r self, alloc: Global, to_form: ReadingLimit) -> FileNames<'s, 'r, 'f>
        ensures { result ≡ self.now }
    {
        FileNames::new(
            alloc,
            FilePlaces::new(alloc, self.image, &self.readings),
            &self.texts,
            to_form,
        )
    }

    /// How the unit with this number is read. None where it isn't.
    pub fn reading(&self, unit: u32) -> Option<Reading>
        ensures { ForUnit self.now.file unit (λ p w. result ≡ reading_of p w) }
    {
        reading_at(&self.readings, unit)
    }
}

// The texts of a file with these readings. None is spelled beforehand where no unit is one of C++.
fn texts_of<'s, 'f, R: Threads + Sync>(
    rt: &R,
    alloc: Global,
    workers: usize,
    image: &'s Image<'f>,
    readings: &[Option<Reading>],
) -> Result<SpelledTexts<'s, 'f>, NoMemory>
    ensures { IfOk result (AreTextsOf image.now.file) }
{
    if has_cxx(readings) {
        SpelledTexts::new(rt, alloc, workers, image.sections())
    } else {
        Ok(SpelledTexts::none(alloc, image.sections()))
    }
}

// Whether a unit is read as one of C++.
fn has_cxx(readings: &[Option<Reading>]) -> bool {
    readings.iter().any(|reading| matches!(reading, Some(read) if read.class == LanguageClass::Cxx))
}

// What is told of the unit with this number.
fn reading_at(readings: &[Option<Reading>], unit: u32) -> Option<Reading>
    ensures { result ≡ option_and_then (λ reading. reading) (slice_get readings.now unit) }
{
    *readings.get(unit as usize)?
}
