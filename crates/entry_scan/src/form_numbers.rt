//! The forms whose values are numbers: how each is written, and what it stands for.

ghost use Rattle.std.specs.Prelude.{◌≡◌};
ghost use Rattle.ix_base.specs.Moves.{MovesOn};
ghost use Rattle.ix_base.specs.Reading.{number, offset, uleb};
ghost use Rattle.index_model.specs.Meaning.{some_or};
ghost use Rattle.index_model.specs.Gives.{GivesAlways};
ghost use Rattle.entry_scan.specs.FormNumbers.{written, stands_for, IsNumberForm};
ghost use Rattle.index_model.specs.FormSeen.{seen};

use dwarf_codes::form;
use index_model::Value;
use ix_base::Cursor;
use ix_base::code::TRUNCATED;

/// How a number is written.
#[derive(Clone, Copy)]
pub(crate) enum Width {
    One,
    Two,
    Three,
    Four,
    Eight,
    /// As an offset, by the format of the unit.
    Offset,
    /// As an offset, but in version 2 as an address.
    Reference,
    /// As an unsigned LEB128 number.
    Leb,
}

/// What a number stands for, by the variant of `Value` of the same name.
#[derive(Clone, Copy)]
pub(crate) enum NumberClass {
    Addr,
    Unsigned,
    Flag,
    Str,
    LineStr,
    StrIndex,
    AddrIndex,
    Near,
    Far,
    Signature,
    Offset,
    RangeIndex,
    ListIndex,
}

/// The width of the form's number, and what the number stands for. None where the form isn't that of a number alone.
pub(crate) fn number_form(form: u64) -> Option<(Width, NumberClass)>
    ensures { IsNumberForm form result }
{
    match form {
        form::DW_FORM_data1 => Some((Width::One, NumberClass::Unsigned)),
        form::DW_FORM_flag => Some((Width::One, NumberClass::Flag)),
        form::DW_FORM_ref1 => Some((Width::One, NumberClass::Near)),
        form::DW_FORM_strx1 => Some((Width::One, NumberClass::StrIndex)),
        form::DW_FORM_addrx1 => Some((Width::One, NumberClass::AddrIndex)),
        form::DW_FORM_data2 => Some((Width::Two, NumberClass::Unsigned)),
        form::DW_FORM_ref2 => Some((Width::Two, NumberClass::Near)),
        form::DW_FORM_strx2 => Some((Width::Two, NumberClass::StrIndex)),
        form::DW_FORM_addrx2 => Some((Width::Two, NumberClass::AddrIndex)),
        form::DW_FORM_strx3 => Some((Width::Three, NumberClass::StrIndex)),
        form::DW_FORM_addrx3 => Some((Width::Three, NumberClass::AddrIndex)),
        form::DW_FORM_data4 => Some((Width::Four, NumberClass::Unsigned)),
        form::DW_FORM_ref4 => Some((Width::Four, NumberClass::Near)),
        form::DW_FORM_strx4 => Some((Width::Four, NumberClass::StrIndex)),
        form::DW_FORM_addrx4 => Some((Width::Four, NumberClass::AddrIndex)),
        form::DW_FORM_addr => Some((Width::Eight, NumberClass::Addr)),
        form::DW_FORM_data8 => Some((Width::Eight, NumberClass::Unsigned)),
        form::DW_FORM_ref8 => Some((Width::Eight, NumberClass::Near)),
        form::DW_FORM_ref_sig8 => Some((Width::Eight, NumberClass::Signature)),
        form::DW_FORM_strp => Some((Width::Offset, NumberClass::Str)),
        form::DW_FORM_ref_addr => Some((Width::Reference, NumberClass::Far)),
        form::DW_FORM_sec_offset => Some((Width::Offset, NumberClass::Offset)),
        form::DW_FORM_line_strp => Some((Width::Offset, NumberClass::LineStr)),
        form::DW_FORM_udata => Some((Width::Leb, NumberClass::Unsigned)),
        form::DW_FORM_ref_udata => Some((Width::Leb, NumberClass::Near)),
        form::DW_FORM_strx => Some((Width::Leb, NumberClass::StrIndex)),
        form::DW_FORM_addrx => Some((Width::Leb, NumberClass::AddrIndex)),
        form::DW_FORM_loclistx => Some((Width::Leb, NumberClass::ListIndex)),
        form::DW_FORM_rnglistx => Some((Width::Leb, NumberClass::RangeIndex)),
        _ => None,
    }
}

/// The value that a number of this kind stands for.
pub(crate) fn value_of<'a>(kind: NumberClass, number: u64) -> Value<'a>
    ensures { seen result ≡ stands_for kind number }
{
    match kind {
        NumberClass::Addr => Value::Addr(number),
        NumberClass::Unsigned => Value::Unsigned(number),
        NumberClass::Flag => Value::Flag(number != 0),
        NumberClass::Str => Value::Str(number),
        NumberClass::LineStr => Value::LineStr(number),
        NumberClass::StrIndex => Value::StrIndex(number),
        NumberClass::AddrIndex => Value::AddrIndex(number),
        NumberClass::Near => Value::Near(number),
        NumberClass::Far => Value::Far(number),
        NumberClass::Signature => Value::Signature(number),
        NumberClass::Offset => Value::Offset(number),
        NumberClass::RangeIndex => Value::RangeIndex(number),
        NumberClass::ListIndex => Value::ListIndex(number),
    }
}

/// The next number of this width.
pub(crate) fn read_number(
    width: Width,
    wide: bool,
    version: u16,
    cursor: &mut Cursor<'_>,
) -> Result<u64, u8>
    ensures value { GivesAlways (λ n. (n, cursor.new)) result (some_or (written version wide width cursor.old) TRUNCATED) }
    ensures place { MovesOn cursor.old cursor.new }
{
    match width {
        Width::One => one(cursor),
        Width::Two => two(cursor),
        Width::Three => three(cursor),
        Width::Four => four(cursor),
        Width::Eight => eight(cursor),
        Width::Offset => offset_of(wide, cursor),
        Width::Reference => offset_of(wide || version == 2, cursor),
        Width::Leb => leb(cursor),
    }
}

/// The number in the next byte.
pub(crate) fn one(cursor: &mut Cursor<'_>) -> Result<u64, u8>
    ensures value { GivesAlways (λ n. (n, cursor.new)) result (some_or (number 1 cursor.old) TRUNCATED) }
    ensures place { MovesOn cursor.old cursor.new }
{
    Ok(u64::from(cursor.u8().ok_or(TRUNCATED)?))
}

/// The number in the next two bytes.
pub(crate) fn two(cursor: &mut Cursor<'_>) -> Result<u64, u8>
    ensures value { GivesAlways (λ n. (n, cursor.new)) result (some_or (number 2 cursor.old) TRUNCATED) }
    ensures place { MovesOn cursor.old cursor.new }
{
    Ok(u64::from(cursor.u16().ok_or(TRUNCATED)?))
}

// The number in the next three bytes.
fn three(cursor: &mut Cursor<'_>) -> Result<u64, u8>
    ensures value { GivesAlways (λ n. (n, cursor.new)) result (some_or (number 3 cursor.old) TRUNCATED) }
    ensures place { MovesOn cursor.old cursor.new }
{
    Ok(u64::from(cursor.u24().ok_or(TRUNCATED)?))
}

/// The number in the next four bytes.
pub(crate) fn four(cursor: &mut Cursor<'_>) -> Result<u64, u8>
    ensures value { GivesAlways (λ n. (n, cursor.new)) result (some_or (number 4 cursor.old) TRUNCATED) }
    ensures place { MovesOn cursor.old cursor.new }
{
    Ok(u64::from(cursor.u32().ok_or(TRUNCATED)?))
}

// The number in the next eight bytes.
fn eight(cursor: &mut Cursor<'_>) -> Result<u64, u8>
    ensures value { GivesAlways (λ n. (n, cursor.new)) result (some_or (number 8 cursor.old) TRUNCATED) }
    ensures place { MovesOn cursor.old cursor.new }
{
    Ok(cursor.u64().ok_or(TRUNCATED)?)
}

// The next offset.
fn offset_of(wide: bool, cursor: &mut Cursor<'_>) -> Result<u64, u8>
    ensures value { GivesAlways (λ n. (n, cursor.new)) result (some_or (offset wide cursor.old) TRUNCATED) }
    ensures place { MovesOn cursor.old cursor.new }
{
    Ok(cursor.offset(wide).ok_or(TRUNCATED)?)
}

/// The next unsigned LEB128 number.
pub(crate) fn leb(cursor: &mut Cursor<'_>) -> Result<u64, u8>
    ensures value { GivesAlways (λ n. (n, cursor.new)) result (some_or (uleb cursor.old) TRUNCATED) }
    ensures place { MovesOn cursor.old cursor.new }
{
    Ok(cursor.uleb().ok_or(TRUNCATED)?)
}
