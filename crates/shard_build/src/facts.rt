//! What an entry says of itself (DWARF 5, sections 2 to 5).

ghost use Rattle.std.specs.Prelude.{◌≡◌, option_map, option_and_then};
ghost use Rattle.index_model.specs.Attributes.{low_pc, high_pc, ranges_value, has_address, is_declaration, has_external, has_enum_class, says_main, signature_of, next_reference, import_of, language_value, read_as, as_offset, as_reference};
ghost use Rattle.index_model.specs.Rules.{has_value};
ghost use Rattle.index_model.specs.ShardParts.{raw_of, raw_of_high, as_next};

use crate::forms;
use dwarf_codes::attribute::{
    DW_AT_abstract_origin, DW_AT_addr_base, DW_AT_calling_convention, DW_AT_const_value,
    DW_AT_declaration, DW_AT_entry_pc, DW_AT_enum_class, DW_AT_external, DW_AT_high_pc,
    DW_AT_import, DW_AT_language, DW_AT_location, DW_AT_low_pc, DW_AT_main_subprogram,
    DW_AT_ranges, DW_AT_rnglists_base, DW_AT_signature, DW_AT_specification,
    DW_AT_str_offsets_base,
};
use dwarf_codes::tag::DW_TAG_variable;
use entry_scan::Item;
use index_model::{Next, Raw};

// The calling convention of a main program.
const PROGRAM: u64 = 2;

/// Its low_pc, as it stands there.
pub(crate) fn low(entry: &Item<'_>) -> Option<Raw>
    ensures { result ≡ option_and_then raw_of (low_pc entry.now) }
{
    forms::address(entry.value(DW_AT_low_pc))
}

/// Its high_pc, as it stands there.
pub(crate) fn high(entry: &Item<'_>) -> Option<Raw>
    ensures { result ≡ option_and_then raw_of_high (high_pc entry.now) }
{
    forms::high(entry.value(DW_AT_high_pc))
}

/// Where its list of ranges stands, in a unit of this version.
pub(crate) fn ranges(entry: &Item<'_>, version: u16) -> Option<Raw>
    ensures { result ≡ option_and_then raw_of (ranges_value version entry.now) }
{
    forms::ranges(version, entry.value(DW_AT_ranges))
}

/// Whether it is itself a declaration.
pub(crate) fn is_declaration(entry: &Item<'_>) -> bool
    ensures { result ≡ is_declaration entry.now }
{
    entry.is_set(DW_AT_declaration)
}

/// Whether it has itself the external flag.
pub(crate) fn is_external(entry: &Item<'_>) -> bool
    ensures { result ≡ has_external entry.now }
{
    entry.is_set(DW_AT_external)
}

/// Whether it is a scoped enumeration.
pub(crate) fn is_enum_class(entry: &Item<'_>) -> bool
    ensures { result ≡ has_enum_class entry.now }
{
    entry.is_set(DW_AT_enum_class)
}

/// Whether it says itself that it is the main program.
pub(crate) fn is_main(entry: &Item<'_>) -> bool
    ensures { result ≡ says_main entry.now }
{
    entry.is_set(DW_AT_main_subprogram)
        || forms::unsigned(entry.value(DW_AT_calling_convention)) == Some(PROGRAM)
}

/// Whether it has itself a const_value or, as a variable, a location.
pub(crate) fn has_value(entry: &Item<'_>) -> bool
    ensures { result ≡ has_value entry.now }
{
    entry.has(DW_AT_const_value) || (entry.tag() == DW_TAG_variable && entry.has(DW_AT_location))
}

/// Whether it has itself a low_pc, ranges or an entry_pc, in a unit of this version.
pub(crate) fn has_address(entry: &Item<'_>, version: u16) -> bool
    ensures { result ≡ has_address version entry.now }
{
    forms::is_address(entry.value(DW_AT_low_pc))
        || forms::are_ranges(version, entry.value(DW_AT_ranges))
        || forms::is_address(entry.value(DW_AT_entry_pc))
}

/// The reference that an entry has in an attribute (DWARF 5, section 7.5.5, reference). None where it has no such attribute, or
/// one that is no reference into this file's units by an offset.
pub fn reference(entry: &Item<'_>, attribute: u64) -> Option<Next>
    ensures { result ≡ option_map as_next (read_as as_reference attribute entry.now) }
{
    forms::reference(entry.value(attribute))
}

/// The reference that its chain follows: its specification, or else its abstract origin.
pub(crate) fn next(entry: &Item<'_>) -> Option<Next>
    ensures { result ≡ option_map as_next (next_reference entry.now) }
{
    match reference(entry, DW_AT_specification) {
        Some(next) => Some(next),
        None => reference(entry, DW_AT_abstract_origin),
    }
}

/// The signature of the type unit that describes it.
pub(crate) fn signature(entry: &Item<'_>) -> Option<u64>
    ensures { result ≡ signature_of entry.now }
{
    forms::signature(entry.value(DW_AT_signature))
}

/// The unit that it imports.
pub(crate) fn import(entry: &Item<'_>) -> Option<Next>
    ensures { result ≡ option_map as_next (import_of entry.now) }
{
    reference(entry, DW_AT_import)
}

/// Its language code. One above 65,535 counts as 0.
pub(crate) fn language(entry: &Item<'_>) -> Option<u16>
    ensures { result ≡ language_value entry.now }
{
    match forms::unsigned(entry.value(DW_AT_language)) {
        Some(code) => Some(if code <= 0xffff { code as u16 } else { 0 }),
        None => None,
    }
}

/// Where its unit's part of `.debug_str_offsets` begins.
pub(crate) fn str_offsets_base(entry: &Item<'_>) -> Option<u64>
    ensures { result ≡ read_as as_offset 0x72 entry.now }
{
    forms::offset(entry.value(DW_AT_str_offsets_base))
}

/// Where its unit's part of `.debug_addr` begins.
pub(crate) fn addr_base(entry: &Item<'_>) -> Option<u64>
    ensures { result ≡ read_as as_offset 0x73 entry.now }
{
    forms::offset(entry.value(DW_AT_addr_base))
}

/// Where its unit's part of `.debug_rnglists` begins.
pub(crate) fn rnglists_base(entry: &Item<'_>) -> Option<u64>
    ensures { result ≡ read_as as_offset 0x74 entry.now }
{
    forms::offset(entry.value(DW_AT_rnglists_base))
}
