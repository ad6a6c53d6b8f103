//! What is read of a value, by its form (DWARF 5, sections 7.5.4 and 7.5.5). A value of another form counts as absent.

ghost use Rattle.std.specs.Prelude.{◌≡◌, is_some, option_map, option_and_then};
ghost use Rattle.index_model.specs.Attributes.{as_text, as_address, as_unsigned, as_high, as_ranges, as_reference, as_signature, as_offset};
ghost use Rattle.index_model.specs.Forms.{Signed, Offset};
ghost use Rattle.index_model.specs.ShardParts.{raw_of, raw_of_high, as_next};
ghost use Rattle.index_model.specs.FormSeen.{seen};

use index_model::{Next, Raw, Value};

/// Whether it is a text.
pub(crate) fn is_text(value: &Option<Value<'_>>) -> bool
    ensures { result ≡ is_some (option_and_then as_text (option_map seen value.now)) }
{
    matches!(
        value,
        Some(Value::Inline(_) | Value::Str(_) | Value::LineStr(_) | Value::StrIndex(_))
    )
}

/// An address, as it stands in the entry.
pub(crate) fn address(value: Option<Value<'_>>) -> Option<Raw>
    ensures { result ≡ option_and_then raw_of (option_and_then as_address (option_map seen value.entry)) }
{
    match value {
        Some(Value::Addr(address)) => Some(Raw::Address(address)),
        Some(Value::AddrIndex(index)) => Some(Raw::AddressIndex(index)),
        _ => None,
    }
}

/// Whether it is an address.
pub(crate) fn is_address(value: Option<Value<'_>>) -> bool
    ensures { result ≡ is_some (option_and_then as_address (option_map seen value.entry)) }
{
    matches!(value, Some(Value::Addr(_) | Value::AddrIndex(_)))
}

/// A constant that isn't negative.
pub(crate) fn unsigned(value: Option<Value<'_>>) -> Option<u64>
    ensures { result ≡ option_and_then as_unsigned (option_map seen value.entry) }
{
    match value {
        Some(Value::Unsigned(number)) => Some(number),
        Some(Value::Signed(number)) => not_negative(number),
        _ => None,
    }
}

// The number, if it isn't negative.
fn not_negative(number: i64) -> Option<u64>
    ensures { result ≡ as_unsigned (Signed number) }
{
    if number < 0 {
        None
    } else {
        Some(number as u64)
    }
}

/// The high end of a range, as it stands in the entry: an address, or a number of bytes behind the low end.
pub(crate) fn high(value: Option<Value<'_>>) -> Option<Raw>
    ensures { result ≡ option_and_then raw_of_high (option_and_then as_high (option_map seen value.entry)) }
{
    match value {
        Some(Value::Addr(address)) => Some(Raw::Address(address)),
        Some(Value::AddrIndex(index)) => Some(Raw::AddressIndex(index)),
        _ => match unsigned(value) {
            Some(bytes) => Some(Raw::Constant(bytes)),
            None => None,
        },
    }
}

// A constant that is the offset of a list of ranges.
fn offset_by_constant(value: Option<Value<'_>>) -> Option<Raw>
    ensures { result ≡ option_and_then raw_of (option_map Offset (option_and_then as_unsigned (option_map seen value.entry))) }
{
    match unsigned(value) {
        Some(offset) => Some(Raw::Offset(offset)),
        None => None,
    }
}

/// Where a list of ranges stands, as the entry says it, in a unit of this version.
pub(crate) fn ranges(version: u16, value: Option<Value<'_>>) -> Option<Raw>
    ensures { result ≡ option_and_then raw_of (option_and_then (as_ranges version) (option_map seen value.entry)) }
{
    match value {
        Some(Value::Offset(offset)) => Some(Raw::Offset(offset)),
        Some(Value::RangeIndex(index)) => if version == 5 {
            Some(Raw::RangeIndex(index))
        } else {
            None
        },
        _ => if version <= 3 {
            offset_by_constant(value)
        } else {
            None
        },
    }
}

/// Whether it says where a list of ranges stands, in a unit of this version.
pub(crate) fn are_ranges(version: u16, value: Option<Value<'_>>) -> bool
    ensures { result ≡ is_some (option_and_then (as_ranges version) (option_map seen value.entry)) }
{
    match value {
        Some(Value::Offset(_)) => true,
        Some(Value::RangeIndex(_)) => version == 5,
        _ => version <= 3 && unsigned(value).is_some(),
    }
}

/// A reference, as it stands in the entry.
pub(crate) fn reference(value: Option<Value<'_>>) -> Option<Next>
    ensures { result ≡ option_map as_next (option_and_then as_reference (option_map seen value.entry)) }
{
    match value {
        Some(Value::Near(target)) => Some(Next { target, near: true }),
        Some(Value::Far(target)) => Some(Next {
            target,
            near: false,
        }),
        _ => None,
    }
}

/// The signature of a type unit.
pub(crate) fn signature(value: Option<Value<'_>>) -> Option<u64>
    ensures { result ≡ option_and_then as_signature (option_map seen value.entry) }
{
    match value {
        Some(Value::Signature(signature)) => Some(signature),
        _ => None,
    }
}

/// An offset into the section that the attribute names.
pub(crate) fn offset(value: Option<Value<'_>>) -> Option<u64>
    ensures { result ≡ option_and_then as_offset (option_map seen value.entry) }
{
    match value {
        Some(Value::Offset(offset)) => Some(offset),
        _ => None,
    }
}
