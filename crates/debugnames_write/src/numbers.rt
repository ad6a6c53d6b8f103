//! Numbers as bytes (DWARF 5, sections 7.4 and 7.6).

ghost use Rattle.std.specs.Prelude.{◌≡◌, ◌≤◌, ◌++◌, length, flat_map, OnOk};
ghost use Rattle.index_model.specs.Layout.{u16_bytes, u32_bytes};
ghost use Rattle.index_model.specs.NameIndex.{uleb_bytes};

use std::alloc::AllocError;

/// Appends a number in 2 bytes, the lowest first.
pub(crate) fn push_u16(out: &mut Vec<u8>, number: u16) -> Result<(), AllocError>
    ensures { OnOk result (out.new.items ≡ out.old.items ++ u16_bytes number) }
{
    out.extend_from_slice(&number.to_le_bytes())
}

/// Appends a number in 4 bytes, the lowest first.
pub(crate) fn push_u32(out: &mut Vec<u8>, number: u32) -> Result<(), AllocError>
    ensures { OnOk result (out.new.items ≡ out.old.items ++ u32_bytes number) }
{
    out.extend_from_slice(&number.to_le_bytes())
}

/// Appends numbers in 4 bytes each.
pub(crate) fn push_u32s(out: &mut Vec<u8>, numbers: &[u32]) -> Result<(), AllocError>
    ensures { OnOk result (out.new.items ≡ out.old.items ++ flat_map u32_bytes numbers.now) }
{
    for number in numbers {
        push_u32(out, *number)?;
    }
    Ok(())
}

/// Appends a LEB number in as few bytes as it takes.
pub(crate) fn push_uleb(out: &mut Vec<u8>, number: u64) -> Result<(), AllocError>
    ensures { OnOk result (out.new.items ≡ out.old.items ++ uleb_bytes number) }
{
    let mut rest = number;
    while rest >= 128 {
        out.push((rest % 128 + 128) as u8)?;
        rest /= 128;
    }
    out.push(rest as u8)?;
    Ok(())
}

/// In how many bytes `push_uleb` writes a number.
pub(crate) fn uleb_size(number: u64) -> u64
    ensures size { result ≡ length (uleb_bytes number) }
    ensures few { result ≤ 10 }
{
    let mut rest = number;
    let mut size = 1;
    while rest >= 128 {
        rest /= 128;
        size += 1;
    }
    size
}
