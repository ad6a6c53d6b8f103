//! A program file with its sections and units.

ghost use Rattle.std.specs.Prelude.{◌≡◌, ◌≤◌, ◌<◌, ◌+◌, ◌^◌, length, take, drop};
ghost use Rattle.index_model.specs.Gives.{Gives};
ghost use Rattle.file_image.specs.Images.{image_of, unit_bytes, ForUnit};

use crate::sections::Sections;
use crate::tile::units;
use index_model::{Part, Unit};
use ix_base::{MAX_FILE_BYTES, MAX_UNITS, Stop};
use std::alloc::Global;
use std::marker::Model;

/// A program file, its sections and the units that tile `.debug_info` and `.debug_types`. All bytes are borrowed from the
/// file. Contracts see the file, the sections and the units.
#[derive(Drop)]
pub struct Image<'f> {
    file: &'f [u8],
    sections: Sections<'f>,
    info: &'f [u8],
    types: &'f [u8],
    units: Vec<Unit>,
}

impl<'f> Model for Image<'f> {
    ghost use Rattle.file_image.specs.Images.{Image, view_of};
    ghost use Rattle.file_image.specs.Inside.{IsWhole};

    ghost Value = { Image };

    ghost view = { λ i. view_of i.file.now i.sections i.units.items };

    ghost invariant = { λ i. IsWhole (view_of i.file.now i.sections i.units.items) i.info.now i.types.now };
}

impl<'f> Image<'f> {
    /// A program file with its sections and units, or the first fault of the sections, as `Sections::open` tells it, and
    /// then of the units' headers, as `units` does.
    pub fn open(alloc: Global, file: &'f [u8]) -> Result<Image<'f>, Stop>
        requires { length file.now ≤ MAX_FILE_BYTES }
        ensures { Gives (λ i. i) result (image_of file.now) }
    {
        let sections = Sections::open(alloc, file)?;
        let units = units(alloc, &sections)?;
        Ok(Image {
            file,
            info: sections.debug_info(),
            types: sections.get(b".debug_types"),
            sections,
            units,
        })
    }

    /// The sections.
    pub fn sections(&self) -> &Sections<'f>
        ensures value { result.now ≡ self.now.sections }
        ensures of_file { image_of self.now.file ≡ Ok self.now }
    {
        &self.sections
    }

    /// The units, those of `.debug_info` first, in the order of their places.
    pub fn units(&self) -> &[Unit]
        ensures value { result.now ≡ self.now.units }
        ensures of_file { image_of self.now.file ≡ Ok self.now }
        ensures few { length result.now ≤ MAX_UNITS }
    {
        &self.units
    }

    /// The file.
    pub fn file(&self) -> &'f [u8]
        ensures value { result.now ≡ self.now.file }
        ensures of_file { image_of self.now.file ≡ Ok self.now }
    {
        self.file
    }

    /// The bytes of the unit with this number, counted from 0 over both sections, from its first byte to its end. Its
    /// header lies in them.
    pub fn unit_bytes(&self, number: usize) -> &'f [u8]
        requires { number < length self.now.units }
        ensures own { ForUnit self.now.units number (λ u. result.now ≡ unit_bytes self.now.sections u) }
        ensures header { ForUnit self.now.units number (λ u. u.body ≤ length result.now) }
        ensures small { ForUnit self.now.units number (λ u. u.start + length result.now < 2 ^ 63) }
    {
        let unit = self.units[number];
        match unit.part {
            Part::Info => between(self.info, unit.start, unit.length),
            Part::Types => {
                let base = self.info.len() as u64;
                between(self.types, unit.start - base, unit.length)
            }
        }
    }
}

// The bytes from a place on.
fn between(bytes: &[u8], at: u64, count: u64) -> &[u8]
    requires { at + count ≤ length bytes.now }
    ensures { result.now ≡ take count (drop at bytes.now) }
{
    let at = at as usize;
    &bytes[at..at + count as usize]
}
