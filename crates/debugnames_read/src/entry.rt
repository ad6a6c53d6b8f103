//! The entries of the pool (DWARF 5, section 6.1.1.4.8).

ghost use Rattle.std.specs.Prelude.{◌≡◌, option_map};
ghost use Rattle.ix_base.specs.Moves.{MovesOn, Reads};
ghost use Rattle.index_model.specs.Gives.{GivesAlways};
ghost use Rattle.index_model.specs.NameIndexRead.{entry_with, type_unit, unit_of};
ghost use Rattle.debugnames_read.specs.Abbreviations.{abbreviations_in};
ghost use Rattle.debugnames_read.specs.Entries.{entry_at, hit_by, hit_seen, unit_seen};
ghost use Rattle.debugnames_read.specs.Names.{tables_of};
ghost use Rattle.debugnames_read.specs.Tables.{tables_seen};
ghost use Rattle.debugnames_read.specs.Values.{kept_seen};

use crate::attributes::{IndexAttributes, number_in};
use crate::header::fault;
use crate::names::IndexTables;
use crate::tables::Tables;
use index_model::index_code::NAMES_ENTRY_POOL;
use ix_base::{Cursor, Fault};

/// The list in which a unit stands.
#[derive(Clone, Copy, Debug, PartialEq, Eq)]
pub enum Sort {
    /// The compile units.
    Compile,
    /// The type units of this file.
    Local,
    /// The type units of other files, by their signatures.
    Foreign,
}

/// An entry of a name.
#[derive(Clone, Copy, Debug, PartialEq, Eq)]
pub struct NameHit {
    /// The list of its unit.
    pub sort: Sort,
    /// The place of its unit in that list, counted from 0.
    pub unit: u32,
    /// Its tag (DWARF 5, section 7.5.3, table 7.3).
    pub tag: u64,
    /// Its offset from the first byte of its unit.
    pub offset: u64,
}

impl<'a> IndexTables<'a> {
    /// The entry at the cursor, None where the code 0 ends the entries, or the fault that it is cut, has an unknown code or
    /// doesn't say its unit and its offset.
    #[tactic(auto, unfolding(crate::specs::Entries::entry_at))]
    pub fn read_entry(&self, cursor: &mut Cursor<'a>) -> Result<Option<NameHit>, Fault>
        ensures value { GivesAlways (λ o. option_map (λ h. (hit_seen h, cursor.new)) o) result (entry_at (tables_of self.now) (abbreviations_in (tables_of self.now).abbreviations) cursor.old) }
        ensures place { MovesOn cursor.old cursor.new }
    {
        let wrong = fault(NAMES_ENTRY_POOL, cursor.at());
        let code = cursor.uleb().ok_or(wrong)?;
        if code == 0 {
            return Ok(None);
        }
        let hit = self.entry_with(code, cursor).ok_or(wrong)?;
        Ok(Some(hit))
    }

    // The entry with a code, behind the code.
    #[tactic(auto, unfolding(index_model::specs::NameIndexRead::entry_with))]
    fn entry_with(&self, code: u64, cursor: &mut Cursor<'a>) -> Option<NameHit>
        ensures value { Reads hit_seen (entry_with (tables_of self.now) (abbreviations_in (tables_of self.now).abbreviations) code) cursor.old cursor.new result }
        ensures place { MovesOn cursor.old cursor.new }
    {
        let found = self.known.find(&self.tables.abbreviations, code)?;
        let attributes = found.read(self.tables.wide, cursor)?;
        self.tables.hit(found.abbreviation.tag, &attributes)
    }
}

impl<'a> Tables<'a> {
    // What the attributes of an entry say.
    #[tactic(auto, unfolding(crate::specs::Entries::hit_by))]
    fn hit(&self, tag: u64, attributes: &IndexAttributes) -> Option<NameHit>
        ensures { option_map hit_seen result ≡ hit_by (tables_seen self.now) tag (kept_seen attributes.now) }
    {
        let compile = number_in(attributes.compile_unit)?;
        let types = number_in(attributes.type_unit)?;
        let offset = number_in(attributes.die_offset)??;
        let (sort, unit) = self.unit_of(types, compile)?;
        Some(NameHit {
            sort,
            unit,
            tag,
            offset,
        })
    }

    // The unit by type_unit, else by compile_unit, else the only compile unit.
    fn unit_of(&self, types: Option<u64>, compile: Option<u64>) -> Option<(Sort, u32)>
        ensures { option_map unit_seen result ≡ unit_of (tables_seen self.now) types compile }
    {
        let cus = self.counts.cus;
        match (types, compile) {
            (Some(number), _) => self.type_unit(number),
            (None, Some(number)) if number < u64::from(cus) => Some((Sort::Compile, number as u32)),
            (None, None) if cus == 1 => Some((Sort::Compile, 0)),
            _ => None,
        }
    }

    // A type unit by its number: local ones come first, then foreign ones.
    fn type_unit(&self, number: u64) -> Option<(Sort, u32)>
        ensures { option_map unit_seen result ≡ type_unit (tables_seen self.now) number }
    {
        let local = u64::from(self.counts.local);
        if number < local {
            return Some((Sort::Local, number as u32));
        }
        if number < local + u64::from(self.counts.foreign) {
            return Some((Sort::Foreign, (number - local) as u32));
        }
        None
    }
}
