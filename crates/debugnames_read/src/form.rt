//! The forms that an index attribute may have (DWARF 5, sections 6.1.1.4.7 and 7.5.5).

ghost use Rattle.std.specs.Prelude.{◌≡◌};
ghost use Rattle.ix_base.specs.Moves.{MovesOn, Reads};
ghost use Rattle.index_model.specs.NameAbbreviations.{as_number, is_form};
ghost use Rattle.debugnames_read.specs.Values.{value_by, value_seen};

use dwarf_codes::form::{
    DW_FORM_data1, DW_FORM_data2, DW_FORM_data4, DW_FORM_data8, DW_FORM_flag, DW_FORM_flag_present,
    DW_FORM_ref_addr, DW_FORM_ref_udata, DW_FORM_ref1, DW_FORM_ref2, DW_FORM_ref4, DW_FORM_ref8,
    DW_FORM_sdata, DW_FORM_sec_offset, DW_FORM_udata,
};
use ix_base::Cursor;

/// The value of an index attribute.
#[derive(Clone, Copy)]
pub(crate) enum IndexValue {
    Number(u64),
    /// It is negative, or its form has no bytes.
    NotANumber,
}

/// Whether an index attribute may have the form.
pub(crate) fn is_form(form: u64) -> bool
    ensures { result ≡ is_form form }
{
    match form {
        DW_FORM_data1 | DW_FORM_flag | DW_FORM_ref1 => true,
        DW_FORM_data2 | DW_FORM_ref2 => true,
        DW_FORM_data4 | DW_FORM_ref4 => true,
        DW_FORM_data8 | DW_FORM_ref8 => true,
        DW_FORM_udata | DW_FORM_ref_udata => true,
        DW_FORM_ref_addr | DW_FORM_sec_offset => true,
        DW_FORM_sdata | DW_FORM_flag_present => true,
        _ => false,
    }
}

/// Reads the value of a form at the cursor. An offset has 8 bytes in the 64-bit format, else 4. None where bytes are missing,
/// a LEB128 number is too large or no attribute may have the form.
pub(crate) fn read_value(wide: bool, form: u64, cursor: &mut Cursor<'_>) -> Option<IndexValue>
    ensures value { Reads value_seen (value_by wide form) cursor.old cursor.new result }
    ensures place { MovesOn cursor.old cursor.new }
{
    match form {
        DW_FORM_data1 | DW_FORM_flag | DW_FORM_ref1 => Some(IndexValue::Number(u64::from(
            cursor.u8()?,
        ))),
        DW_FORM_data2 | DW_FORM_ref2 => Some(IndexValue::Number(u64::from(cursor.u16()?))),
        DW_FORM_data4 | DW_FORM_ref4 => Some(IndexValue::Number(u64::from(cursor.u32()?))),
        DW_FORM_data8 | DW_FORM_ref8 => Some(IndexValue::Number(cursor.u64()?)),
        DW_FORM_udata | DW_FORM_ref_udata => Some(IndexValue::Number(cursor.uleb()?)),
        DW_FORM_ref_addr | DW_FORM_sec_offset => Some(IndexValue::Number(cursor.offset(wide)?)),
        DW_FORM_sdata => Some(signed(cursor.sleb()?)),
        DW_FORM_flag_present => Some(IndexValue::NotANumber),
        _ => None,
    }
}

// A number with a sign.
fn signed(number: i64) -> IndexValue
    ensures { value_seen result ≡ as_number number }
{
    if number < 0 {
        IndexValue::NotANumber
    } else {
        IndexValue::Number(number as u64)
    }
}
