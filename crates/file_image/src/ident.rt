//! The first fields of the ELF header (System V gABI, chapter 4, "ELF Header").

ghost use Rattle.std.specs.Prelude.{◌≡◌, ◌≤◌, length, nat_le, OnOk};
ghost use Rattle.index_model.specs.Gives.{GivesAlways};
ghost use Rattle.index_model.specs.Sections.{ident, field, begins_with, magic};

use byteorder::{ByteOrder, LittleEndian};
use ix_base::{Fault, code};

/// The length of the ELF header of a file of 64 bits.
pub(crate) const HEADER_LENGTH: usize = 64;

const CLASS_64: u8 = 2;

const LOWEST_BYTE_FIRST: u8 = 1;

const EXECUTABLE: u16 = 2;

const SHARED_OBJECT: u16 = 3;

/// An ELF file of 64 bits with the lowest byte first, that is an executable or a shared object, or the first of its
/// faults.
#[tactic(auto, unfolding(index_model::specs::Sections::ident, index_model::specs::Sections::field))]
pub(crate) fn check_ident(file: &[u8]) -> Result<(), Fault>
    ensures value { GivesAlways (λ _. record {}) result (ident file.now) }
    ensures long { OnOk result (64 ≤ length file.now) }
{
    if file.len() < HEADER_LENGTH || !file.starts_with(b"\x7FELF") {
        return Err(elf_fault(code::NOT_ELF, 0));
    }
    if file[4] != CLASS_64 {
        return Err(elf_fault(code::ELF_KIND, 4));
    }
    if file[5] != LOWEST_BYTE_FIRST {
        return Err(elf_fault(code::ELF_KIND, 5));
    }
    let kind = LittleEndian::read_u16(&file[16..]);
    if kind != EXECUTABLE && kind != SHARED_OBJECT {
        return Err(elf_fault(code::ELF_KIND, 16));
    }
    Ok(())
}

fn elf_fault(code: u8, at: u64) -> Fault
    ensures { result ≡ record { code = code; at = at } }
{
    Fault { code, at }
}
