//! The header: the version, and the offsets of the areas.

ghost use Rattle.std.specs.Prelude.{◌≡◌, ◌≤◌, ◌<◌, ◌+◌, ◌*◌, ◌^◌, length, OnOk};
ghost use Rattle.index_model.specs.GdbAreas.{areas_at, version_of};
ghost use Rattle.index_model.specs.Gives.{GivesAlways};
ghost use Rattle.index_model.specs.Layout.{field};
ghost use Rattle.gdbindex_read.specs.Areas.{areas_seen};
ghost use Rattle.gdbindex_read.specs.declared.header.Version.TheVariants.{Eight};
ghost use Rattle.gdbindex_read.specs.Header.{version_number, header_length, offset_count, pool_field, offsets, checked_offsets, AreInOrder};

use crate::area::{Area, fault, u32_at};
use crate::areas::Areas;
use byteorder::{ByteOrder, LittleEndian};
use index_model::index_code::{GDB_OFFSETS, GDB_VERSION};
use ix_base::Fault;

/// The versions that are read.
#[derive(Clone, Copy)]
pub(crate) enum Version {
    Eight,
    /// It has a shortcut between the symbol table and the constant pool.
    Nine,
}

const VERSION_LENGTH: usize = 4;

impl Version {
    /// The version at the front of the section, or the fault that there is none or it is another.
    #[tactic(auto, unfolding(index_model::specs::GdbAreas::version_of))]
    pub fn read(section: &[u8]) -> Result<Version, Fault>
        ensures value { GivesAlways version_number result (version_of section.now) }
        ensures long { OnOk result (4 ≤ length section.now) }
    {
        if section.len() < VERSION_LENGTH {
            return Err(fault(GDB_VERSION, 0));
        }
        match LittleEndian::read_u32(section) {
            8 => Ok(Version::Eight),
            9 => Ok(Version::Nine),
            _ => Err(fault(GDB_VERSION, 0)),
        }
    }

    // How many bytes the header has.
    fn header_length(self) -> usize
        ensures { result ≡ header_length self }
    {
        match self {
            Version::Eight => 24,
            Version::Nine => 28,
        }
    }

    // How many offsets stand behind the version.
    fn offset_count(self) -> usize
        ensures { result ≡ offset_count self }
    {
        match self {
            Version::Eight => 5,
            Version::Nine => 6,
        }
    }

    // Which of the offsets is that of the constant pool. In version 8 it is where the shortcut, which has no bytes, begins.
    fn pool_field(self) -> usize
        ensures { result ≡ pool_field self }
    {
        match self {
            Version::Eight => 4,
            Version::Nine => 5,
        }
    }
}

// Where the header has the offset with this number.
fn place_of(number: usize) -> usize
    requires { number < 2 ^ 32 }
    ensures { result ≡ 4 * number + 4 }
{
    4 * number + VERSION_LENGTH
}

// The offset with this number.
fn offset_at(section: &[u8], number: usize) -> usize
    requires few { number < 2 ^ 32 }
    requires inside { 4 * number + 8 ≤ length section.now }
    ensures value { result ≡ field 4 (4 * number + 4) section.now }
    ensures small { result < 2 ^ 32 }
{
    u32_at(section, place_of(number)) as usize
}

/// Whether the header is whole and no offset is less than the one before it or past the end; the first not less than the
/// length of the header.
pub(crate) fn check_offsets(section: &[u8], version: Version) -> Result<(), Fault>
    ensures value { GivesAlways (λ _. offsets section.now version) result (checked_offsets section.now version) }
    ensures order { OnOk result (AreInOrder section.now version) }
{
    let mut least = version.header_length();
    if section.len() < least {
        return Err(fault(GDB_OFFSETS, VERSION_LENGTH));
    }
    let count = version.offset_count();
    for number in 0..count {
        let offset = offset_at(section, number);
        if offset < least || offset > section.len() {
            return Err(fault(GDB_OFFSETS, place_of(number)));
        }
        least = offset;
    }
    Ok(())
}

/// The areas that begin at the offsets, each up to the next.
pub(crate) fn areas_between<'a>(section: &'a [u8], version: Version) -> Areas<'a>
    requires { AreInOrder section.now version }
    ensures value { areas_seen result ≡ areas_at section.now (version_number version) (offsets section.now version) }
    ensures small { length result.table.bytes.now < 2 ^ 32 }
    ensures shortcut { version ≡ Eight → length result.shortcut.bytes.now ≡ 0 }
{
    let cus = offset_at(section, 0);
    let types = offset_at(section, 1);
    let addresses = offset_at(section, 2);
    let table = offset_at(section, 3);
    let shortcut = offset_at(section, 4);
    let pool = offset_at(section, version.pool_field());
    Areas {
        cus: Area::between(section, cus, types),
        types: Area::between(section, types, addresses),
        addresses: Area::between(section, addresses, table),
        table: Area::between(section, table, shortcut),
        shortcut: Area::between(section, shortcut, pool),
        pool: Area::between(section, pool, section.len()),
    }
}
