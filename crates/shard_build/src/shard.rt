//! The shard of a run of units.

ghost use Rattle.std.specs.Prelude.{◌≡◌, ◌+◌, ◌<◌, ◌≤◌, Some, codes, length, slice_get, take, drop, OnOk};
ghost use Rattle.std.specs.List.{enumerate_from};
ghost use Rattle.index_model.specs.Faults.{scanned};
ghost use Rattle.index_model.specs.Gives.{GivesFor};
ghost use Rattle.index_model.specs.Meaning.{each};
ghost use Rattle.index_model.specs.Sections.{section_bytes};
ghost use Rattle.index_model.specs.Shards.{StandsFor};
ghost use Rattle.index_model.specs.Strings.{str};
ghost use Rattle.index_model.specs.declared.unit.Unit.{Unit as UnitHeader};
ghost use Rattle.shard_build.specs.Runs.{HoldsOneMore, AreAtOffsets};

use crate::home::UnitInFile;
use crate::run::ShardSoFar;
use crate::tables::Tables;
use entry_scan::AbbrevTable;
use file_image::Image;
use index_model::{Shard, TextBytes};
use ix_base::Stop;
use std::alloc::Global;

/// The shard of the `count` units from number `first` on, counted over both sections in section order.
///
/// Stops at the first fault of these units. Of each unit come first its abbreviations (code 10, at the unit's joint offset),
/// then its entries in order (DWARF 5, sections 7.5.2 and 7.5.3: codes 11, 12 and 18 to 21, at the entry's joint offset) and
/// what stands behind them (23), and then the texts of its entries (7.5.5, class string: codes 13, 14 and 24, at the entry's
/// joint offset, name before linkage name). Each unit's bytes are read once.
pub fn scan<'f>(alloc: Global, image: &Image<'f>, first: u32, count: u32) -> Result<Shard<'f>, Stop>
    requires { first + count ≤ length image.now.units }
    ensures { GivesFor (StandsFor image.now.sections) result (each (scanned image.now.sections) (take count (drop first (enumerate_from 0 image.now.units)))) }
{
    // There are at most `MAX_UNITS` of them, so their numbers don't wrap.
    let units = &image.units()[first as usize..(first + count) as usize];
    let bytes = TextBytes {
        file: image.file(),
        strings: image.sections().debug_str(),
    };
    let mut run = ShardSoFar::new(alloc, bytes);
    let mut tables = Tables::new(alloc, units, image.sections().debug_abbrev().len())?;
    for number in first..first + count {
        add_unit(alloc, image, number, &mut run, &mut tables)?;
    }
    Ok(run.shard(first))
}

// Takes in the unit with this number, by its table of abbreviations.
fn add_unit<'f>(
    alloc: Global,
    image: &Image<'f>,
    number: u32,
    run: &mut ShardSoFar<'f>,
    tables: &mut Tables,
) -> Result<(), Stop>
    requires within { number < length image.now.units }
    requires strings { run.old.kept.nodes.strings ≡ str image.now.sections }
    requires tables { AreAtOffsets (section_bytes image.now.sections (codes ".debug_abbrev")) tables.old.kept }
    ensures value { (u : UnitHeader) → slice_get image.now.units number ≡ Some u → GivesFor (λ _ w. HoldsOneMore image.now.sections run.old run.new w) result (scanned image.now.sections (number, u)) }
    ensures tables { OnOk result (AreAtOffsets (section_bytes image.now.sections (codes ".debug_abbrev")) tables.new.kept) }
{
    let home = UnitInFile::of(image, number);
    let section = image.sections().debug_abbrev();
    let kept = tables.take(home.unit.abbrev);
    let read = kept.is_none();
    let table = AbbrevTable::of(alloc, section, &home.unit, kept)?;
    run.unit(&home, &table.abbrevs)?;
    tables.put(table, read)?;
    Ok(())
}
