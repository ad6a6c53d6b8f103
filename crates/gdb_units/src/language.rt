//! The class of a unit's own language, by which gdb reads the unit and what it owns (gdb/dwarf2/read.c, `prepare_one_comp_unit`
//! and `dwarf2_cu::producer`).

ghost use Rattle.std.specs.Prelude.{◌≡◌, option_map, unwrap_or, if◌then◌else◌};
ghost use Rattle.gdb_entries.specs.Classes.{class_of};
ghost use Rattle.gdb_entries.specs.Owners.{is_go_compiler};
ghost use Rattle.gdb_entries.specs.declared.language.LanguageClass.TheVariants.{Go};

use gdb_entries::{LanguageClass, class};
use memchr::memmem;

// What the producer of gcc's compiler of Go says, which gives the language of C.
const GO_COMPILER: &[u8] = b"GNU Go ";

/// The class of the language of a unit's root, of which these are the language code (DWARF 5, section 7.12) and the producer
/// (section 3.1.1), as far as it has them.
pub fn own_class(language: Option<u16>, producer: Option<&[u8]>) -> LanguageClass
    ensures { result ≡ (if is_go_compiler (option_map (λ b. b.now) producer.entry) then Go else class_of (unwrap_or language 0)) }
{
    if producer.is_some_and(is_go_compiler) {
        return LanguageClass::Go;
    }
    class(language.unwrap_or(0))
}

// Whether the producer is gcc's compiler of Go.
fn is_go_compiler(producer: &[u8]) -> bool
    ensures { result ≡ is_go_compiler (Some producer.now) }
{
    memmem::find(producer, GO_COMPILER).is_some()
}
