//! The CU list and the types list (GDB manual, "Index Section Format").

ghost use Rattle.std.specs.Prelude.{◌≡◌, ◌<◌, ◌^◌, ◌++◌, OnOk};
ghost use Rattle.index_model.specs.GdbIndex.{cu_list, is_type_unit, types_list};
ghost use Rattle.gdbindex_write.specs.Units.{cu_bytes, info_part, start_behind, types_bytes};
ghost use Rattle.gdbindex_write.specs.Writable.{info_bytes, unit_bytes};

use crate::put::put_u64;
use index_model::{Part, Unit, UnitSort};
use ix_base::NoMemory;

/// Whether the unit is a type unit.
pub(crate) fn is_type_unit(unit: &Unit) -> bool
    ensures { result ≡ is_type_unit unit.now }
{
    match unit.sort {
        UnitSort::TypeUnit => true,
        _ => false,
    }
}

/// Appends the start and the length of each unit that isn't a type unit.
pub(crate) fn put_cu_list(out: &mut Vec<u8>, units: &[Unit]) -> Result<(), NoMemory>
    requires { unit_bytes units.now < 2 ^ 32 }
    ensures { OnOk result (out.new.items ≡ out.old.items ++ cu_list units.now) }
{
    let info = info_length(units);
    for unit in units {
        put_cu(out, unit, info)?;
    }
    Ok(())
}

// Appends what the CU list has of a unit, behind so many bytes of `.debug_info`.
fn put_cu(out: &mut Vec<u8>, unit: &Unit, info: u64) -> Result<(), NoMemory>
    ensures { OnOk result (out.new.items ≡ out.old.items ++ cu_bytes info unit.now) }
{
    if is_type_unit(unit) {
        return Ok(());
    }
    put_u64(out, start_behind(unit, info))?;
    put_u64(out, unit.length)?;
    Ok(())
}

/// Appends the start, the offset of the type and the signature of each type unit.
pub(crate) fn put_types_list(out: &mut Vec<u8>, units: &[Unit]) -> Result<(), NoMemory>
    requires { unit_bytes units.now < 2 ^ 32 }
    ensures { OnOk result (out.new.items ≡ out.old.items ++ types_list units.now) }
{
    let info = info_length(units);
    for unit in units {
        put_type_unit(out, unit, info)?;
    }
    Ok(())
}

// Appends what the types list has of a unit, behind so many bytes of `.debug_info`.
fn put_type_unit(out: &mut Vec<u8>, unit: &Unit, info: u64) -> Result<(), NoMemory>
    ensures { OnOk result (out.new.items ≡ out.old.items ++ types_bytes info unit.now) }
{
    if !is_type_unit(unit) {
        return Ok(());
    }
    put_u64(out, start_behind(unit, info))?;
    put_u64(out, unit.type_offset)?;
    put_u64(out, unit.signature)?;
    Ok(())
}

// How many bytes the units of `.debug_info` have.
fn info_length(units: &[Unit]) -> u64
    requires { unit_bytes units.now < 2 ^ 32 }
    ensures { result ≡ info_bytes units.now }
{
    let mut total = 0;
    for unit in units {
        total += info_part(unit);
    }
    total
}

// How many bytes of `.debug_info` the unit has.
fn info_part(unit: &Unit) -> u64
    ensures { result ≡ info_part unit.now }
{
    match unit.part {
        Part::Info => unit.length,
        Part::Types => 0,
    }
}

// Where a unit begins in its own section. A joint offset in `.debug_types` counts the bytes of `.debug_info` too.
fn start_behind(unit: &Unit, info: u64) -> u64
    ensures { result ≡ start_behind info unit.now }
{
    match unit.part {
        Part::Info => unit.start,
        Part::Types => unit.start.saturating_sub(info),
    }
}
