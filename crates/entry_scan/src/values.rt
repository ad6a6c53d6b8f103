//! The values of an entry's attributes, by the specs that its abbreviation lists.

ghost use Rattle.std.specs.Prelude.{◌≡◌};
ghost use Rattle.ix_base.specs.Moves.{MovesOn};
ghost use Rattle.index_model.specs.Forms.{value_at};
ghost use Rattle.index_model.specs.Gives.{GivesAlways};
ghost use Rattle.index_model.specs.FormSeen.{seen};
ghost use Rattle.entry_scan.specs.Fronts.{IsFront};
ghost use Rattle.entry_scan.specs.Values.{values_at, place_read};

use crate::abbreviation::Spec;
use crate::form_numbers::leb;
use crate::forms::{block_leb, read_value};
use crate::sizes::{Front, size_of};
use dwarf_codes::form::{DW_FORM_exprloc, DW_FORM_loclistx, DW_FORM_udata};
use index_model::Value;
use ix_base::Cursor;
use ix_base::code::TRUNCATED;

/// How the numbers of a unit's entries are written.
#[derive(Clone, Copy)]
pub(crate) struct UnitFormat {
    pub version: u16,
    pub wide: bool,
}

// The value at the cursor, by its spec.
pub(crate) fn read<'a>(
    spec: &Spec,
    format: UnitFormat,
    cursor: &mut Cursor<'a>,
) -> Result<Value<'a>, u8>
    ensures value { GivesAlways (λ v. (seen v, cursor.new)) result (value_at format.version format.wide spec.now.form spec.now.constant cursor.old) }
    ensures place { MovesOn cursor.old cursor.new }
{
    read_value(
        format.wide,
        format.version,
        spec.form,
        spec.constant,
        cursor,
    )
}

// Passes the value at the cursor, by its spec. Where its size is known it isn't read.
pub(crate) fn pass_one(spec: &Spec, format: UnitFormat, cursor: &mut Cursor<'_>) -> Result<(), u8>
    ensures value { GivesAlways (λ _. cursor.new) result (place_read (value_at format.version format.wide spec.now.form spec.now.constant cursor.old)) }
    ensures place { MovesOn cursor.old cursor.new }
{
    match size_of(spec.form, format.wide) {
        Some(size) => match cursor.skip(u64::from(size)) {
            Some(_) => Ok(()),
            None => Err(TRUNCATED),
        },
        None => pass_counted(spec, format, cursor),
    }
}

// Passes a value that says itself how many bytes it takes. The forms that compilers write most are read with no value made of them.
#[tactic(auto, unfolding(index_model::specs::Forms::value_at))]
fn pass_counted(spec: &Spec, format: UnitFormat, cursor: &mut Cursor<'_>) -> Result<(), u8>
    ensures value { GivesAlways (λ _. cursor.new) result (place_read (value_at format.version format.wide spec.now.form spec.now.constant cursor.old)) }
    ensures place { MovesOn cursor.old cursor.new }
{
    match spec.form {
        DW_FORM_exprloc => match block_leb(cursor) {
            Ok(_) => Ok(()),
            Err(code) => Err(code),
        },
        DW_FORM_udata | DW_FORM_loclistx => match leb(cursor) {
            Ok(_) => Ok(()),
            Err(code) => Err(code),
        },
        _ => match read(spec, format, cursor) {
            Ok(_) => Ok(()),
            Err(code) => Err(code),
        },
    }
}

// Passes the values at the cursor. The error is that of the first value that can't be read.
pub(crate) fn pass(specs: &[Spec], format: UnitFormat, cursor: &mut Cursor<'_>) -> Result<(), u8>
    ensures value { GivesAlways (λ _. cursor.new) result (place_read (values_at format specs.now cursor.old)) }
    ensures place { MovesOn cursor.old cursor.new }
{
    for spec in specs {
        if let Err(code) = pass_one(spec, format, cursor) {
            return Err(code);
        }
    }
    Ok(())
}

// The same, by the front of these attributes, whose values are passed in one.
pub(crate) fn pass_all(
    specs: &[Spec],
    front: Front,
    format: UnitFormat,
    cursor: &mut Cursor<'_>,
) -> Result<(), u8>
    requires { IsFront specs.now front }
    ensures value { GivesAlways (λ _. cursor.new) result (place_read (values_at format specs.now cursor.old)) }
    ensures place { MovesOn cursor.old cursor.new }
{
    if format.wide {
        return pass(specs, format, cursor);
    }
    match cursor.skip(u64::from(front.bytes)) {
        Some(_) => pass(&specs[front.count as usize..], format, cursor),
        None => Err(TRUNCATED),
    }
}
