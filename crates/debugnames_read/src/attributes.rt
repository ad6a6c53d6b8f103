//! The attributes of an entry that say what it stands for (DWARF 5, section 6.1.1.4.7, table 6.1).

ghost use Rattle.std.specs.Prelude.{◌≡◌, [], map, option_map};
ghost use Rattle.ix_base.specs.Moves.{MovesOn, Reads};
ghost use Rattle.debugnames_read.specs.Counting.{is_wanted};
ghost use Rattle.debugnames_read.specs.Specs.{spec_seen, specs_in, HasSpecs};
ghost use Rattle.index_model.specs.NameIndexRead.{number_or_none};
ghost use Rattle.debugnames_read.specs.Values.{first_values, kept_of, kept_seen, value_seen, with_value};

use crate::abbreviation::IndexSpec;
use crate::form::{IndexValue, read_value};
use dwarf_codes::index_attribute::{DW_IDX_compile_unit, DW_IDX_die_offset, DW_IDX_type_unit};
use ix_base::Cursor;

/// The first value of each attribute that counts.
#[derive(Clone, Copy)]
pub(crate) struct IndexAttributes {
    pub compile_unit: Option<IndexValue>,
    pub type_unit: Option<IndexValue>,
    pub die_offset: Option<IndexValue>,
}

impl IndexAttributes {
    /// None was read yet.
    pub fn none() -> IndexAttributes
        ensures { kept_seen result ≡ kept_of [] }
    {
        IndexAttributes {
            compile_unit: None,
            type_unit: None,
            die_offset: None,
        }
    }

    /// Whether an attribute counts and has no value yet.
    pub fn wants(&self, attribute: u64) -> bool
        ensures { result ≡ is_wanted (kept_seen self.now) attribute }
    {
        match attribute {
            DW_IDX_compile_unit => self.compile_unit.is_none(),
            DW_IDX_type_unit => self.type_unit.is_none(),
            DW_IDX_die_offset => self.die_offset.is_none(),
            _ => false,
        }
    }

    /// Keeps the value of an attribute, if it counts and has none yet.
    pub fn keep(&mut self, attribute: u64, value: IndexValue)
        ensures { kept_seen self.new ≡ with_value (kept_seen self.old) attribute (value_seen value) }
    {
        match attribute {
            DW_IDX_compile_unit => self.compile_unit = self.compile_unit.or(Some(value)),
            DW_IDX_type_unit => self.type_unit = self.type_unit.or(Some(value)),
            DW_IDX_die_offset => self.die_offset = self.die_offset.or(Some(value)),
            _ => {}
        }
    }

    /// The values of attributes at the cursor, each in its form. Those that don't count are passed.
    pub fn read(
        wide: bool,
        mut specs: Cursor<'_>,
        cursor: &mut Cursor<'_>,
    ) -> Option<IndexAttributes>
        requires { HasSpecs specs }
        ensures value { Reads kept_seen (first_values wide (specs_in specs.entry)) cursor.old cursor.new result }
        ensures place { MovesOn cursor.old cursor.new }
    {
        let mut found = IndexAttributes::none();
        'attributes: for _ in 0..specs.rest().len() + 1 {
            let spec = IndexSpec::read(&mut specs)?;
            if spec.is_last() {
                return Some(found);
            }
            let value = read_value(wide, spec.form, cursor)?;
            found.keep(spec.attribute, value);
        }
        None
    }

    /// The same of attributes that were listed.
    pub fn read_listed(
        wide: bool,
        specs: &[IndexSpec],
        cursor: &mut Cursor<'_>,
    ) -> Option<IndexAttributes>
        ensures value { Reads kept_seen (first_values wide (map spec_seen specs.now)) cursor.old cursor.new result }
        ensures place { MovesOn cursor.old cursor.new }
    {
        let mut found = IndexAttributes::none();
        for listed in specs {
            let value = read_value(wide, listed.form, cursor)?;
            found.keep(listed.attribute, value);
        }
        Some(found)
    }
}

/// The number that an attribute has, if it is there. None where its value isn't a number.
pub(crate) fn number_in(value: Option<IndexValue>) -> Option<Option<u64>>
    ensures { result ≡ number_or_none (option_map value_seen value) }
{
    match value {
        None => Some(None),
        Some(IndexValue::Number(number)) => Some(Some(number)),
        Some(IndexValue::NotANumber) => None,
    }
}
