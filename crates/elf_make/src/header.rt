//! The headers of the file and of its sections (System V gABI, "ELF Header" and "Section Header").

ghost use Rattle.std.specs.Prelude.{◌≡◌, ◌≤◌, ◌++◌, OnOk};
ghost use Rattle.elf_make.specs.Packed.{elf_header, section_header, zeros, ident, half, word, xword};

use ix_base::NoMemory;

const EM_X86_64: u16 = 62;

const EV_CURRENT: u32 = 1;

const HEADER_SIZE: u16 = 64;

pub(crate) const SHT_PROGBITS: u32 = 1;

pub(crate) const SHT_STRTAB: u32 = 3;

const IDENT: &[u8] = b"\x7FELF\x02\x01\x01\0\0\0\0\0\0\0\0\0";

/// Appends the ELF header of a file of this type, which has so many section headers at this place, the last of
/// them that of the names.
#[tactic(auto, unfolding(crate::specs::Packed::elf_header))]
pub(crate) fn push_elf_header(
    file: &mut Vec<u8>,
    kind: u16,
    count: u16,
    place: u64,
) -> Result<(), NoMemory>
    requires { 1 ≤ count }
    ensures { OnOk result (file.new.items ≡ file.old.items ++ elf_header kind count place) }
{
    push_ident(file)?;
    push_half(file, kind)?;
    push_half(file, EM_X86_64)?;
    push_word(file, EV_CURRENT)?;
    // No entry point and no segments.
    push_xword(file, 0)?;
    push_xword(file, 0)?;
    push_xword(file, place)?;
    push_word(file, 0)?;
    push_half(file, HEADER_SIZE)?;
    push_half(file, 0)?;
    push_half(file, 0)?;
    push_half(file, HEADER_SIZE)?;
    push_half(file, count)?;
    push_half(file, count - 1)
}

/// Appends the header of a section: where its name stands in `.shstrtab`, its type, its place in the file and its size.
#[tactic(auto, unfolding(crate::specs::Packed::section_header))]
pub(crate) fn push_section_header(
    file: &mut Vec<u8>,
    name: u32,
    kind: u32,
    place: u64,
    size: u64,
) -> Result<(), NoMemory>
    ensures { OnOk result (file.new.items ≡ file.old.items ++ section_header name kind place size) }
{
    push_word(file, name)?;
    push_word(file, kind)?;
    // No flags and no address.
    push_xword(file, 0)?;
    push_xword(file, 0)?;
    push_xword(file, place)?;
    push_xword(file, size)?;
    push_word(file, 0)?;
    push_word(file, 0)?;
    push_xword(file, 1)?;
    push_xword(file, 0)
}

/// Appends that many zeros.
pub(crate) fn push_zeros(file: &mut Vec<u8>, count: usize) -> Result<(), NoMemory>
    requires { count ≤ 64 }
    ensures { OnOk result (file.new.items ≡ file.old.items ++ zeros count) }
{
    const ZEROS: [u8; 64] = [0; 64];
    file.extend_from_slice(&ZEROS[..count])?;
    Ok(())
}

#[tactic(auto, unfolding(crate::specs::Packed::ident, crate::specs::Packed::zeros))]
fn push_ident(file: &mut Vec<u8>) -> Result<(), NoMemory>
    ensures { OnOk result (file.new.items ≡ file.old.items ++ ident) }
{
    file.extend_from_slice(IDENT)?;
    Ok(())
}

/// Appends a number of 2 bytes, the lowest first.
#[tactic(auto, unfolding(crate::specs::Packed::half))]
pub(crate) fn push_half(file: &mut Vec<u8>, number: u16) -> Result<(), NoMemory>
    ensures { OnOk result (file.new.items ≡ file.old.items ++ half number) }
{
    file.extend_from_slice(&number.to_le_bytes())?;
    Ok(())
}

/// Appends a number of 4 bytes, the lowest first.
#[tactic(auto, unfolding(crate::specs::Packed::word))]
pub(crate) fn push_word(file: &mut Vec<u8>, number: u32) -> Result<(), NoMemory>
    ensures { OnOk result (file.new.items ≡ file.old.items ++ word number) }
{
    file.extend_from_slice(&number.to_le_bytes())?;
    Ok(())
}

/// Appends a number of 8 bytes, the lowest first.
#[tactic(auto, unfolding(crate::specs::Packed::xword))]
pub(crate) fn push_xword(file: &mut Vec<u8>, number: u64) -> Result<(), NoMemory>
    ensures { OnOk result (file.new.items ≡ file.old.items ++ xword number) }
{
    file.extend_from_slice(&number.to_le_bytes())?;
    Ok(())
}
