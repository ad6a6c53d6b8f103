//! The value of an attribute, by its form (DWARF 5, section 7.5.6).
//!
//! A form says how a value is written and what it stands for. All forms of DWARF 5 are read, in units of every version.

ghost use Rattle.std.specs.Prelude.{◌≡◌, ◌≢◌};
ghost use Rattle.ix_base.specs.Moves.{MovesOn};
ghost use Rattle.ix_base.specs.Reading.{number, offset, uleb, sleb, zstr, bytes, skip};
ghost use Rattle.index_model.specs.Meaning.{some_or};
ghost use Rattle.index_model.specs.Gives.{GivesAlways};
ghost use Rattle.index_model.specs.Forms.{by, counted, Block, Inline, Signed, Wide, reader_of, plain_forms, indirect, value_at};
ghost use Rattle.entry_scan.specs.FormNumbers.{other_forms};
ghost use Rattle.index_model.specs.FormSeen.{seen};

use crate::form_numbers::{four, leb, number_form, one, read_number, two, value_of};
use dwarf_codes::form;
use index_model::Value;
use ix_base::Cursor;
use ix_base::code::{SUPPLEMENTARY, TRUNCATED, UNKNOWN_FORM};

// The block of the next `count` bytes.
#[inline(always)]
fn block<'a>(count: u64, cursor: &mut Cursor<'a>) -> Result<Value<'a>, u8>
    ensures value { GivesAlways (λ v. (seen v, cursor.new)) result (by (bytes count) Block cursor.old) }
    ensures place { MovesOn cursor.old cursor.new }
{
    Ok(Value::Block(cursor.bytes(count).ok_or(TRUNCATED)?))
}

// The value of form data16, which isn't kept.
fn sixteen<'a>(cursor: &mut Cursor<'a>) -> Result<Value<'a>, u8>
    ensures value { GivesAlways (λ v. (seen v, cursor.new)) result (by (skip 16) (λ _. Wide) cursor.old) }
    ensures place { MovesOn cursor.old cursor.new }
{
    cursor.skip(16).ok_or(TRUNCATED)?;
    Ok(Value::Wide)
}

// The value of form sdata.
fn signed<'a>(cursor: &mut Cursor<'a>) -> Result<Value<'a>, u8>
    ensures value { GivesAlways (λ v. (seen v, cursor.new)) result (by sleb Signed cursor.old) }
    ensures place { MovesOn cursor.old cursor.new }
{
    Ok(Value::Signed(cursor.sleb().ok_or(TRUNCATED)?))
}

// The value of form block1.
fn block1<'a>(cursor: &mut Cursor<'a>) -> Result<Value<'a>, u8>
    ensures value { GivesAlways (λ v. (seen v, cursor.new)) result (by (counted (number 1)) Block cursor.old) }
    ensures place { MovesOn cursor.old cursor.new }
{
    let count = one(cursor)?;
    block(count, cursor)
}

// The value of form block2.
fn block2<'a>(cursor: &mut Cursor<'a>) -> Result<Value<'a>, u8>
    ensures value { GivesAlways (λ v. (seen v, cursor.new)) result (by (counted (number 2)) Block cursor.old) }
    ensures place { MovesOn cursor.old cursor.new }
{
    let count = two(cursor)?;
    block(count, cursor)
}

// The value of form block4.
fn block4<'a>(cursor: &mut Cursor<'a>) -> Result<Value<'a>, u8>
    ensures value { GivesAlways (λ v. (seen v, cursor.new)) result (by (counted (number 4)) Block cursor.old) }
    ensures place { MovesOn cursor.old cursor.new }
{
    let count = four(cursor)?;
    block(count, cursor)
}

/// The value of the forms block and exprloc.
#[inline(always)]
pub(crate) fn block_leb<'a>(cursor: &mut Cursor<'a>) -> Result<Value<'a>, u8>
    ensures value { GivesAlways (λ v. (seen v, cursor.new)) result (by (counted uleb) Block cursor.old) }
    ensures place { MovesOn cursor.old cursor.new }
{
    let count = leb(cursor)?;
    block(count, cursor)
}

// The value of form string.
fn string<'a>(cursor: &mut Cursor<'a>) -> Result<Value<'a>, u8>
    ensures value { GivesAlways (λ v. (seen v, cursor.new)) result (by zstr Inline cursor.old) }
    ensures place { MovesOn cursor.old cursor.new }
{
    Ok(Value::Inline(cursor.zstr().ok_or(TRUNCATED)?))
}

// The value of a form that stands for itself.
fn plain<'a>(wide: bool, version: u16, form: u64, cursor: &mut Cursor<'a>) -> Result<Value<'a>, u8>
    ensures value { GivesAlways (λ v. (seen v, cursor.new)) result (reader_of (plain_forms version wide) form cursor.old) }
    ensures place { MovesOn cursor.old cursor.new }
{
    match number_form(form) {
        Some((width, kind)) => {
            let number = read_number(width, wide, version, cursor)?;
            Ok(value_of(kind, number))
        }
        None => other(form, cursor),
    }
}

// The value of a form that isn't that of a number alone.
fn other<'a>(form: u64, cursor: &mut Cursor<'a>) -> Result<Value<'a>, u8>
    ensures value { GivesAlways (λ v. (seen v, cursor.new)) result (reader_of other_forms form cursor.old) }
    ensures place { MovesOn cursor.old cursor.new }
{
    match form {
        form::DW_FORM_flag_present => Ok(Value::Flag(true)),
        form::DW_FORM_data16 => sixteen(cursor),
        form::DW_FORM_sdata => signed(cursor),
        form::DW_FORM_block1 => block1(cursor),
        form::DW_FORM_block2 => block2(cursor),
        form::DW_FORM_block4 => block4(cursor),
        form::DW_FORM_block | form::DW_FORM_exprloc => block_leb(cursor),
        form::DW_FORM_string => string(cursor),
        form::DW_FORM_ref_sup4 | form::DW_FORM_strp_sup | form::DW_FORM_ref_sup8 => Err(
            SUPPLEMENTARY,
        ),
        _ => Err(UNKNOWN_FORM),
    }
}

// The value of a form that stands before it.
#[tactic(auto, unfolding(index_model::specs::Forms::indirect))]
fn behind<'a>(wide: bool, version: u16, cursor: &mut Cursor<'a>) -> Result<Value<'a>, u8>
    ensures value { GivesAlways (λ v. (seen v, cursor.new)) result (indirect version wide cursor.old) }
    ensures place { MovesOn cursor.old cursor.new }
{
    let form = leb(cursor)?;
    plain(wide, version, form, cursor)
}

/// Reads the value of a form at the cursor. `wide` and `version` are those of the unit: an offset has 8 bytes in the
/// 64-bit format, else 4. `constant` is the value that implicit_const has in the abbreviation.
///
/// The error is a code of `ix_base::code`: 11 where the bytes end too early or a LEB128 number is too large, 12 where the
/// form isn't known or may not stand behind indirect, 18 where it names a supplementary file. The cursor then stands
/// somewhere in the value.
#[tactic(auto, unfolding(index_model::specs::Forms::value_at))]
pub fn read_value<'a>(
    wide: bool,
    version: u16,
    form: u64,
    constant: i64,
    cursor: &mut Cursor<'a>,
) -> Result<Value<'a>, u8>
    ensures value { GivesAlways (λ v. (seen v, cursor.new)) result (value_at version wide form constant cursor.old) }
    ensures place { MovesOn cursor.old cursor.new }
{
    match form {
        form::DW_FORM_indirect => behind(wide, version, cursor),
        form::DW_FORM_implicit_const => Ok(Value::Signed(constant)),
        _ => plain(wide, version, form, cursor),
    }
}
