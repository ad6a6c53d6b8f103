//! The name of an item by the first one on its chain (gdb/dwarf2/read.c, `scan_attributes` and `index_dies`).

ghost use Rattle.std.specs.Prelude.{◌≡◌, ◌==◌, if◌then◌else◌, option_map};
ghost use Rattle.index_model.specs.Tags.{namespace};
ghost use Rattle.gdb_entries.specs.Chains.{namespace_name};

use dwarf_codes::tag::DW_TAG_namespace;
use gdb_entries::LanguageClass;

/// The name of an item in a unit that is read by this class, by the first name on its chain. A namespace without one is the anonymous
/// one, and in C++ one called `::` has none.
pub fn name_of<'n>(class: LanguageClass, tag: u64, first: Option<&'n [u8]>) -> Option<&'n [u8]>
    ensures { option_map (λ bytes. bytes.now) result ≡ (if tag == namespace then namespace_name class (option_map (λ bytes. bytes.now) first.entry) else option_map (λ bytes. bytes.now) first.entry) }
{
    if tag == DW_TAG_namespace {
        namespace_name(class, first)
    } else {
        first
    }
}

// The name of a namespace.
fn namespace_name<'n>(class: LanguageClass, first: Option<&'n [u8]>) -> Option<&'n [u8]>
    ensures { option_map (λ bytes. bytes.now) result ≡ namespace_name class (option_map (λ bytes. bytes.now) first.entry) }
{
    match first {
        None => Some(b"(anonymous namespace)"),
        Some(name) => {
            if class == LanguageClass::Cxx && name == b"::".as_slice() {
                None
            } else {
                Some(name)
            }
        }
    }
}
