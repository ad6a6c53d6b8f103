//! The files of one unit.

ghost use Rattle.std.specs.Prelude.{◌<◌, length};
ghost use Rattle.index_model.specs.Gives.{Gives};
ghost use Rattle.reach_model.specs.LineTables.{files_of};
ghost use Rattle.line_files.specs.Ahead.{ahead};
ghost use Rattle.line_files.specs.Found.{files_seen};
ghost use Rattle.line_files.specs.Programs.{ForUnit};

use crate::files::FilesLeft;
use crate::found::FileName;
use crate::place::{line_place, unit_at};
use file_image::Image;
use ix_base::Stop;
use std::alloc::Global;

/// The files of the line table of the unit with this number, in the order of the table; none where its root names no table.
///
/// The fault is the first of the table. Its place is the unit's, and its code is one of `reach_model::code`: 70 where the table
/// passes its section, 71 for its version, 72 where a field or an entry passes the table, 73 for a form, and 74 where a path
/// passes its section. The image is that of a file without a fault; else nothing is said of the answer.
pub fn table<'f>(alloc: Global, image: &Image<'f>, unit: u32) -> Result<Vec<FileName<'f>>, Stop>
    requires { unit < length image.now.units }
    ensures { ForUnit image.now.file unit (λ ss w. Gives (λ v. files_seen v.items) result (files_of ss w)) }
{
    let number = unit as usize;
    let start = unit_at(image, number).start;
    match line_place(alloc, image, number, &mut None)? {
        Some(place) => all_files(alloc, FilesLeft::open(image.sections(), start, place)?),
        None => Ok(Vec::new(alloc)),
    }
}

// All files of a table.
fn all_files<'f>(alloc: Global, mut files: FilesLeft<'_, 'f>) -> Result<Vec<FileName<'f>>, Stop>
    ensures { Gives (λ v. files_seen v.items) result (ahead files.entry) }
{
    let mut found = Vec::new(alloc);
    'files: while let Some(file) = files.next()? {
        found.push(file)?;
    }
    Ok(found)
}
