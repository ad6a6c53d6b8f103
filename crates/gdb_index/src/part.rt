//! The entries of a part of a file's units, by one thread.

ghost use Rattle.std.specs.Prelude.{◌≤◌, ℕ, length, IfOk, OnOk};
ghost use Rattle.gdb_index.specs.Ranges.{AreListed};

use crate::cuts::group_end;
use crate::file::ReadFile;
use crate::unit::list_unit;
use index_model::{Entry, List, Run, Unit};
use ix_base::NoMemory;
use reading_limit::ReadingLimit;
use std::alloc::Global;

// How many bytes may be put together for the units of a part: so many for each byte of them, and so many beside.
const FORMED_PER_BYTE: u64 = 16;

const FORMED_BESIDE: u64 = 1 << 28;

/// The entries of the units with numbers from `first` to below `end`.
///
/// # Errors
///
/// `NoMemory` where memory was refused, or where names that are put together have more bytes than 16 for each byte of the units, and
/// 256 MiB: a short file may put one long scope before many names.
pub(crate) fn list_part<'f>(
    alloc: Global,
    file: &ReadFile<'_, 'f>,
    first: u32,
    end: u32,
) -> Result<Run<'f>, NoMemory>
    requires order { first ≤ end }
    requires within { end ≤ length file.now.units }
    ensures { IfOk result (AreListed file.now.file first end) }
{
    let mut to_form = formed_limit(file.units(), first, end);
    let mut entries = Vec::new(alloc);
    let mut next = first;
    while next < end {
        let behind = group_end(file.units(), next, end);
        list_group(alloc, file, next, behind, &mut to_form, &mut entries)?;
        next = behind;
    }
    Ok(List::of(entries))
}

// How many bytes may be put together for these units.
fn formed_limit(units: &[Unit], first: u32, end: u32) -> ReadingLimit
    requires order { first ≤ end }
    requires within { end ≤ length units.now }
{
    let mut limit = ReadingLimit::of(FORMED_BESIDE);
    for unit in &units[first as usize..end as usize] {
        limit.widen(unit.length.saturating_mul(FORMED_PER_BYTE));
    }
    limit
}

// Adds the entries of these units. What is known of their items is let go at the end.
fn list_group<'f>(
    alloc: Global,
    file: &ReadFile<'_, 'f>,
    first: u32,
    end: u32,
    to_form: &mut ReadingLimit,
    entries: &mut Vec<Entry<'f>>,
) -> Result<(), NoMemory>
    requires order { first ≤ end }
    requires within { end ≤ length file.now.units }
    ensures { (start : ℕ) → AreListed file.now.file start first entries.old.items → OnOk result (AreListed file.now.file start end entries.new.items) }
{
    // The units are those of the image's file.
    let _units = file.units();
    let mut names = file.names(alloc, *to_form);
    for unit in first..end {
        list_unit(alloc, &mut names, unit, file.reading(unit), entries)?;
    }
    *to_form = names.to_form();
    Ok(())
}
