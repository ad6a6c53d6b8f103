//! The header: the version and the offsets of the areas (GDB manual, "Index Section Format").

ghost use Rattle.std.specs.Prelude.{◌≡◌, ◌≤◌, ◌+◌, ◌*◌, ◌++◌, length, sum, OnOk};
ghost use Rattle.gdbindex_write.specs.Header.{header_bytes, offsets};
ghost use Rattle.gdbindex_write.specs.Sizes.{total};

use crate::put::put_u32;
use crate::sizes::Sizes;
use ix_base::NoMemory;

// The bytes of the shortcut.
const SHORTCUT: u64 = 8;

/// Appends the header of an index with these areas.
pub(crate) fn put_header(out: &mut Vec<u8>, version: u8, sizes: &Sizes) -> Result<(), NoMemory>
    requires { total version sizes.now ≤ 4294967295 }
    ensures { OnOk result (out.new.items ≡ out.old.items ++ header_bytes version sizes.now) }
{
    let Sizes {
        units,
        types,
        addresses,
        slots,
        vectors,
        names,
    } = *sizes;
    let pool = vectors + names;
    put_u32(out, u32::from(version))?;
    if version == 9 {
        put_offsets(out, &[units, types, addresses, slots, SHORTCUT, pool])?;
    } else {
        put_offsets(out, &[units, types, addresses, slots, pool])?;
    }
    Ok(())
}

// Appends the offsets of areas of these sizes, which stand one after the other behind the header.
fn put_offsets(out: &mut Vec<u8>, sizes: &[u64]) -> Result<(), NoMemory>
    requires { 4 + 4 * length sizes.now + sum sizes.now ≤ 4294967295 }
    ensures { OnOk result (out.new.items ≡ out.old.items ++ offsets sizes.now) }
{
    let mut at = 4 + 4 * sizes.len() as u64;
    for size in sizes {
        put_u32(out, at as u32)?;
        at += *size;
    }
    Ok(())
}
