//! The fields of the ELF header that say where the section headers are (System V gABI, chapter 4, "ELF Header").

ghost use Rattle.std.specs.Prelude.{◌≡◌, ◌≤◌, length};
ghost use Rattle.reach_model.specs.Added.{count_field, index_field, put};

use crate::fields::{COUNT_IN_SECTION_0, E_SHNUM, E_SHOFF, E_SHSTRNDX, SHN_LORESERVE, SHN_XINDEX};
use crate::numbers::{put_u16, put_u64};

/// Writes into the bytes of a file where its section headers begin, how many there are, and the index of the names' section.
pub(crate) fn set_table(bytes: &mut [u8], place: u64, count: u32, names_index: u32)
    requires { 64 ≤ length bytes.old }
    ensures { bytes.new ≡ put 2 62 (index_field names_index) (put 2 60 (count_field count) (put 8 40 place bytes.old)) }
{
    put_u64(bytes, E_SHOFF, place);
    put_u16(bytes, E_SHNUM, count_field(count));
    put_u16(bytes, E_SHSTRNDX, index_field(names_index));
}

fn count_field(count: u32) -> u16
    ensures { result ≡ count_field count }
{
    if count < SHN_LORESERVE {
        count as u16
    } else {
        COUNT_IN_SECTION_0
    }
}

fn index_field(index: u32) -> u16
    ensures { result ≡ index_field index }
{
    if index < SHN_LORESERVE {
        index as u16
    } else {
        SHN_XINDEX
    }
}
