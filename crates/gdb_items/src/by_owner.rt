//! How gdb reads units, by their owners.

ghost use Rattle.std.specs.Prelude.{◌≡◌, ◌<◌, ◌^◌, ℕ, map, length, IfOk};
ghost use Rattle.std.specs.List.{enumerate_from};
ghost use Rattle.gdb_entries.specs.declared.language.LanguageClass.{LanguageClass as ClassOf};
ghost use Rattle.gdb_entries.specs.Files.{ForProgram, HasProgram};
ghost use Rattle.gdb_items.specs.Readings.{own_reading, reading_at, reading_of};

use crate::imports::imports;
use crate::roots::{Roots, is_any_partial};
use crate::tables::ReadTables;
use file_image::Image;
use gdb_entries::LanguageClass;
use gdb_units::Owners;
use ix_base::NoMemory;
use std::alloc::Global;

/// How gdb reads a unit: as a part of its owner, by the class of the owner's language.
#[derive(Clone, Copy, Debug, PartialEq, Eq)]
pub struct Reading {
    /// The number of the owner in section order, counted from 0.
    pub owner: u32,
    pub class: LanguageClass,
}

/// How gdb reads each unit of a file without a fault, in section order. None of a partial unit that no other unit imports.
pub fn readings(alloc: Global, image: &Image<'_>) -> Result<Vec<Option<Reading>>, NoMemory>
    requires { HasProgram image.now.file }
    ensures { ForProgram image.now.file (λ p. IfOk result (λ v. v.items ≡ map (reading_of p) p.walks)) }
{
    // There are at most `MAX_UNITS` units, so their numbers have 32 bits.
    let _units = image.units();
    let mut tables = ReadTables::new(alloc, image.sections().debug_abbrev());
    let roots = Roots::of(alloc, image, &mut tables)?;
    if !is_any_partial(&roots.units) {
        return own_readings(alloc, &roots.classes);
    }
    let imports = imports(alloc, image, &mut tables)?;
    let owners = Owners::of(alloc, roots.units.as_slice(), imports.as_slice())?;
    owned_readings(alloc, &owners, &roots.classes)
}

// How units are read of which each owns itself.
fn own_readings(alloc: Global, classes: &[LanguageClass]) -> Result<Vec<Option<Reading>>, NoMemory>
    requires { length classes.now < 2 ^ 32 }
    ensures { IfOk result (λ v. v.items ≡ map own_reading (enumerate_from 0 classes.now)) }
{
    let mut readings = Vec::new(alloc);
    for (number, class) in classes.iter().enumerate() {
        readings.push(Some(Reading {
            owner: number as u32,
            class: *class,
        }))?;
    }
    Ok(readings)
}

// How units are read that have these owners.
fn owned_readings(
    alloc: Global,
    owners: &Owners,
    classes: &[LanguageClass],
) -> Result<Vec<Option<Reading>>, NoMemory>
    requires { length classes.now < 2 ^ 32 }
    ensures { IfOk result (λ v. v.items ≡ map (λ (u : ℕ × ClassOf). reading_at owners.now classes.now u.0) (enumerate_from 0 classes.now)) }
{
    let mut readings = Vec::new(alloc);
    for (number, _) in classes.iter().enumerate() {
        readings.push(reading_at(owners, classes, number))?;
    }
    Ok(readings)
}

// How the unit with this number is read.
fn reading_at(owners: &Owners, classes: &[LanguageClass], number: usize) -> Option<Reading>
    requires number { number < length classes.now }
    requires few { length classes.now < 2 ^ 32 }
    ensures { result ≡ reading_at owners.now classes.now number }
{
    let owner = owners.owner(number)?;
    let class = *classes.get(owner)?;
    Some(Reading {
        owner: owner as u32,
        class,
    })
}
