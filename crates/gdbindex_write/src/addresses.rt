//! The address area (GDB manual, "Index Section Format").

ghost use Rattle.std.specs.Prelude.{◌≡◌, ◌<◌, ◌++◌, length, flat_map, All, OnOk};
ghost use Rattle.gdbindex_write.specs.Addresses.{piece_bytes};

use crate::put::{put_u32, put_u64};
use index_model::UnitRange;
use ix_base::NoMemory;

/// Appends the low end and the end of each piece, and the number of its unit in the index.
pub(crate) fn put_address_area(
    out: &mut Vec<u8>,
    numbers: &[u32],
    pieces: &[UnitRange],
) -> Result<(), NoMemory>
    requires { All (λ p. p.unit < length numbers.now) pieces.now }
    ensures { OnOk result (out.new.items ≡ out.old.items ++ flat_map (piece_bytes numbers.now) pieces.now) }
{
    for piece in pieces {
        put_piece(out, numbers, piece)?;
    }
    Ok(())
}

fn put_piece(out: &mut Vec<u8>, numbers: &[u32], piece: &UnitRange) -> Result<(), NoMemory>
    requires { piece.now.unit < length numbers.now }
    ensures { OnOk result (out.new.items ≡ out.old.items ++ piece_bytes numbers.now piece.now) }
{
    put_u64(out, piece.range.low)?;
    put_u64(out, piece.range.end)?;
    put_u32(out, numbers[piece.unit as usize])?;
    Ok(())
}
