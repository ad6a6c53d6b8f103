//! The front of an index: its length and its version (DWARF 5, section 6.1.1.4.1).

ghost use Rattle.std.specs.Prelude.{◌≡◌};
ghost use Rattle.index_model.specs.Gives.{GivesAlways};
ghost use Rattle.index_model.specs.NameHeader.{tables};
ghost use Rattle.ix_base.specs.Moves.{MovesOn};
ghost use Rattle.debugnames_read.specs.Tables.{length_at, tables_seen, version_at};

use crate::tables::Tables;
use index_model::index_code::{NAMES_COUNTS, NAMES_LENGTH, NAMES_VERSION};
use ix_base::{Cursor, Fault};

/// The version that is read.
const VERSION: u16 = 5;

/// A code, and its place in the section.
pub(crate) fn fault(code: u8, at: usize) -> Fault
    ensures { result ≡ record { code = code; at = at } }
{
    Fault {
        code,
        at: at as u64,
    }
}

impl<'a> Tables<'a> {
    /// The tables of an index, or its first fault: the length is cut or reserved, or isn't that of the section; the version
    /// is cut or isn't 5; the counts or a table pass the end.
    pub fn open(section: &'a [u8]) -> Result<Tables<'a>, Fault>
        ensures { GivesAlways tables_seen result (tables section.now) }
    {
        let mut cursor = Cursor::new(section, 0);
        let wide = read_length(&mut cursor)?;
        let first = cursor.at() + 4;
        read_version(&mut cursor)?;
        match Tables::read(wide, cursor) {
            Some(tables) => Ok(tables),
            None => Err(fault(NAMES_COUNTS, first)),
        }
    }
}

// The length, which is that of all that follows: whether the format is the 64-bit one.
fn read_length(cursor: &mut Cursor<'_>) -> Result<bool, Fault>
    ensures value { GivesAlways (λ wide. (wide, cursor.new)) result (length_at cursor.old) }
    ensures place { MovesOn cursor.old cursor.new }
{
    let wrong = fault(NAMES_LENGTH, cursor.at());
    let Some(initial) = cursor.initial_length() else {
        return Err(wrong);
    };
    if initial.length != cursor.rest().len() as u64 {
        return Err(wrong);
    }
    Ok(initial.wide)
}

// The version.
#[tactic(auto, unfolding(crate::specs::Tables::version_at))]
fn read_version(cursor: &mut Cursor<'_>) -> Result<(), Fault>
    ensures value { GivesAlways (λ _. (record {}, cursor.new)) result (version_at cursor.old) }
    ensures place { MovesOn cursor.old cursor.new }
{
    let wrong = fault(NAMES_VERSION, cursor.at());
    if cursor.u16().ok_or(wrong)? != VERSION {
        return Err(wrong);
    }
    Ok(())
}
