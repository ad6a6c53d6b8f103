//! The names of the constant pool.

ghost use Rattle.std.specs.Prelude.{◌≡◌, ◌++◌, flat_map, OnOk};
ghost use Rattle.index_model.specs.Layout.{ended};
ghost use Rattle.gdbindex_write.specs.Symbols.{names_of};

use crate::symbols::Symbol;
use ix_base::NoMemory;

/// Appends the names, each with a zero.
pub(crate) fn put_names(out: &mut Vec<u8>, symbols: &[Symbol<'_>]) -> Result<(), NoMemory>
    ensures { OnOk result (out.new.items ≡ out.old.items ++ flat_map ended (names_of symbols.now)) }
{
    for symbol in symbols {
        out.extend_from_slice(symbol.name)?;
        out.push(0)?;
    }
    Ok(())
}
