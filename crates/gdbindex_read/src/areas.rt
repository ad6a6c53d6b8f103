//! The areas of an index, in their order.

ghost use Rattle.std.specs.Prelude.{◌≡◌, ◌<◌, ◌≤◌, ◌^◌, length, IfOk, OnOk};
ghost use Rattle.index_model.specs.GdbAreas.{areas, unit_count};
ghost use Rattle.index_model.specs.Gives.{GivesAlways};
ghost use Rattle.gdbindex_read.specs.Areas.{area_seen, areas_seen, checked_shortcut, whole_lists, HasShortcut};
ghost use Rattle.gdbindex_read.specs.Header.{version_number};
ghost use Rattle.gdbindex_read.specs.declared.header.Version.TheVariants.{Eight};

use crate::area::{Area, fault};
use crate::header::{Version, areas_between, check_offsets};
use index_model::index_code::{GDB_OFFSETS, GDB_UNIT_LIST};
use ix_base::Fault;

/// The areas of an index. That of the shortcut has no bytes in version 8.
#[derive(Clone, Copy)]
pub(crate) struct Areas<'a> {
    pub cus: Area<'a>,
    pub types: Area<'a>,
    pub addresses: Area<'a>,
    pub table: Area<'a>,
    pub shortcut: Area<'a>,
    pub pool: Area<'a>,
}

/// The length of an entry of the list of units.
const UNIT_LENGTH: usize = 16;

/// The length of an entry of the list of type units.
const TYPE_UNIT_LENGTH: usize = 24;

/// The length of the shortcut.
const SHORTCUT_LENGTH: usize = 8;

/// Where the header of version 9 has the offset of the shortcut.
const SHORTCUT_FIELD: usize = 20;

impl<'a> Areas<'a> {
    /// The areas of an index, or its first fault: the version is cut or another, the header is cut, an offset lies before the
    /// one before it or past the end, or the shortcut of version 9 has fewer than 8 bytes.
    pub fn open(section: &'a [u8]) -> Result<Areas<'a>, Fault>
        ensures value { GivesAlways areas_seen result (areas section.now) }
        ensures small { IfOk result (λ a. length a.table.bytes.now < 2 ^ 32) }
        ensures shortcut { IfOk result HasShortcut }
    {
        let version = Version::read(section)?;
        check_offsets(section, version)?;
        let areas = areas_between(section, version);
        check_shortcut(version, &areas.shortcut)?;
        Ok(areas)
    }

    /// The lists of units and of type units end with an entry, or else the fault of the first that doesn't.
    pub fn check_units(&self) -> Result<(), Fault>
        ensures { GivesAlways (λ _. record {}) result (whole_lists (areas_seen self.now)) }
    {
        if self.cus.bytes.len() % UNIT_LENGTH != 0 {
            return Err(fault(GDB_UNIT_LIST, self.cus.at));
        }
        if self.types.bytes.len() % TYPE_UNIT_LENGTH != 0 {
            return Err(fault(GDB_UNIT_LIST, self.types.at));
        }
        Ok(())
    }

    /// How many units both lists have.
    pub fn unit_count(&self) -> usize
        ensures { result ≡ unit_count (areas_seen self.now) }
    {
        self.cus.bytes.len() / UNIT_LENGTH + self.types.bytes.len() / TYPE_UNIT_LENGTH
    }
}

// In version 9 the area of the shortcut has all of its bytes.
fn check_shortcut(version: Version, shortcut: &Area<'_>) -> Result<(), Fault>
    requires { version ≡ Eight → length shortcut.now.bytes.now ≡ 0 }
    ensures value { GivesAlways (λ _. record {}) result (checked_shortcut (version_number version) (area_seen shortcut.now)) }
    ensures whole { OnOk result (0 < length shortcut.now.bytes.now → 8 ≤ length shortcut.now.bytes.now) }
{
    match version {
        Version::Eight => Ok(()),
        Version::Nine if shortcut.bytes.len() < SHORTCUT_LENGTH => Err(fault(
            GDB_OFFSETS,
            SHORTCUT_FIELD,
        )),
        Version::Nine => Ok(()),
    }
}
