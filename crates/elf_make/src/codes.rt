//! The abbreviations of the generated file.

ghost use Rattle.std.specs.Prelude.{◌≡◌, ◌≤◌};
ghost use Rattle.elf_make.specs.PlainForm.{table_bytes};
ghost use Rattle.elf_make.specs.Generated.{abbreviations};

/// The codes of the abbreviations, in order of first use.
#[derive(Clone, Copy)]
pub(crate) enum Code {
    CompileUnit = 1,
    /// An external subprogram with addresses.
    Function = 2,
    /// A subprogram with addresses that isn't external.
    StaticFunction = 3,
    Variable = 4,
    Typedef = 5,
    Namespace = 6,
    Class = 7,
    /// A subprogram that is declared.
    Declaration = 8,
    /// A subprogram that specifies a declaration.
    Definition = 9,
}

// The codes 1 to 5, which unit 0 uses.
const OF_ONE_UNIT: &[u8] = b"\
    \x01\x11\x01\x03\x08\x13\x0B\x11\x01\x12\x06\0\0\
    \x02\x2E\0\x03\x08\x3F\x19\x11\x01\x12\x06\0\0\
    \x03\x2E\0\x03\x08\x11\x01\x12\x06\0\0\
    \x04\x34\0\x03\x08\x3F\x19\x02\x18\0\0\
    \x05\x16\0\x03\x08\0\0\
    \0";

// All codes, since unit 1 uses the others.
const OF_MORE_UNITS: &[u8] = b"\
    \x01\x11\x01\x03\x08\x13\x0B\x11\x01\x12\x06\0\0\
    \x02\x2E\0\x03\x08\x3F\x19\x11\x01\x12\x06\0\0\
    \x03\x2E\0\x03\x08\x11\x01\x12\x06\0\0\
    \x04\x34\0\x03\x08\x3F\x19\x02\x18\0\0\
    \x05\x16\0\x03\x08\0\0\
    \x06\x39\x01\x03\x08\0\0\
    \x07\x02\x01\x03\x08\0\0\
    \x08\x2E\0\x03\x08\x3F\x19\x3C\x19\0\0\
    \x09\x2E\0\x47\x10\x11\x01\x12\x06\0\0\
    \0";

/// The table of the abbreviations of that many units.
pub(crate) fn abbreviation_table(seed: u32, units: u32) -> &'static [u8]
    requires { 1 ≤ units }
    ensures { result.now ≡ table_bytes (abbreviations seed units) }
{
    if units == 1 {
        OF_ONE_UNIT
    } else {
        OF_MORE_UNITS
    }
}
