//! Numbers in the bytes of a file, the lowest byte first (System V gABI, chapter 4, "Data Representation").

ghost use Rattle.std.specs.Prelude.{◌≡◌, ◌≤◌, ◌+◌, ◌++◌, length, IfOk, OnOk};
ghost use Rattle.index_model.specs.Layout.{u32_bytes, u64_bytes};
ghost use Rattle.reach_model.specs.Added.{put};

use byteorder::{ByteOrder, LittleEndian};
use ix_base::NoMemory;

/// Writes a number of 2 bytes at a place (`Elf64_Half`).

pub(crate) fn put_u16(bytes: &mut [u8], place: usize, number: u16)
    requires { place + 2 ≤ length bytes.old }
    ensures { bytes.new ≡ put 2 place number bytes.old }
{
    LittleEndian::write_u16(&mut bytes[place..], number);
}

/// Writes a number of 4 bytes at a place (`Elf64_Word`).

pub(crate) fn put_u32(bytes: &mut [u8], place: usize, number: u32)
    requires { place + 4 ≤ length bytes.old }
    ensures { bytes.new ≡ put 4 place number bytes.old }
{
    LittleEndian::write_u32(&mut bytes[place..], number);
}

/// Writes a number of 8 bytes at a place (`Elf64_Xword`, `Elf64_Off`).

pub(crate) fn put_u64(bytes: &mut [u8], place: usize, number: u64)
    requires { place + 8 ≤ length bytes.old }
    ensures { bytes.new ≡ put 8 place number bytes.old }
{
    LittleEndian::write_u64(&mut bytes[place..], number);
}

/// Appends a number of 4 bytes.
pub(crate) fn push_u32(bytes: &mut Vec<u8>, number: u32) -> Result<(), NoMemory>
    ensures { OnOk result (bytes.new.items ≡ bytes.old.items ++ u32_bytes number) }
{
    bytes.extend_from_slice(&number.to_le_bytes())?;
    Ok(())
}

/// Appends a number of 8 bytes.
pub(crate) fn push_u64(bytes: &mut Vec<u8>, number: u64) -> Result<(), NoMemory>
    ensures { OnOk result (bytes.new.items ≡ bytes.old.items ++ u64_bytes number) }
{
    bytes.extend_from_slice(&number.to_le_bytes())?;
    Ok(())
}

/// The sum of two sizes, if it is one.
pub(crate) fn sum(a: usize, b: usize) -> Result<usize, NoMemory>
    ensures { IfOk result (λ n. n ≡ a + b) }
{
    a.checked_add(b).ok_or(NoMemory)
}
