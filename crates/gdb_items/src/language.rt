//! The language that a root names (DWARF 5, sections 3.1.1 and 7.12).

ghost use Rattle.std.specs.Prelude.{◌≡◌, option_map, option_and_then};
ghost use Rattle.index_model.specs.Attributes.{as_unsigned, language_value};
ghost use Rattle.index_model.specs.Forms.{Signed};
ghost use Rattle.index_model.specs.FormSeen.{seen};

use dwarf_codes::attribute::DW_AT_language;
use entry_scan::Item;
use index_model::Value;

/// The language code of a root. One above 65,535 counts as 0.
pub(crate) fn language(root: &Item<'_>) -> Option<u16>
    ensures { result ≡ language_value root.now }
{
    match unsigned(root.value(DW_AT_language)) {
        Some(code) => Some(if code <= 0xffff { code as u16 } else { 0 }),
        None => None,
    }
}

// A constant that isn't negative.
fn unsigned(value: Option<Value<'_>>) -> Option<u64>
    ensures { result ≡ option_and_then as_unsigned (option_map seen value.entry) }
{
    match value {
        Some(Value::Unsigned(number)) => Some(number),
        Some(Value::Signed(number)) => not_negative(number),
        _ => None,
    }
}

// The number, if it isn't negative.
fn not_negative(number: i64) -> Option<u64>
    ensures { result ≡ as_unsigned (Signed number) }
{
    if number < 0 {
        None
    } else {
        Some(number as u64)
    }
}
