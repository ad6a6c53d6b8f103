//! The hashes of names in indexes, taken from the last byte of a name to the first.
//!
//! Both go over the bytes from first to last, multiply what they have by a factor at each and add a term: so the hash is the sum
//! of all terms, each times the factor as often as bytes follow, and of the start times the factor as often as there are bytes.

ghost use Rattle.std.specs.Prelude.{◌≡◌, ◌^◌, ◌%◌, ◌*◌, ◌+◌};
ghost use Rattle.string_ends.specs.Formulas.{factor, start, term};

/// The hash of a name in an index.
#[derive(Clone, Copy)]
pub enum Formula {
    /// That of `.gdb_index` (GDB manual, "Index Section Format").
    GdbIndex,
    /// That of `.debug_names` (DWARF 5, section 7.33).
    NameIndex,
}

impl Formula {
    /// What a hash is multiplied by at each byte.
    pub(crate) fn factor(self) -> u32
        ensures { result ≡ factor self }
    {
        match self {
            Formula::GdbIndex => 67,
            Formula::NameIndex => 33,
        }
    }

    /// What a byte adds, modulo 2 ^ 32. Letters count in lower case.
    pub(crate) fn term(self, byte: u8) -> u32
        ensures { result ≡ term self byte % 2 ^ 32 }
    {
        let letter = u32::from(byte.to_ascii_lowercase());
        match self {
            Formula::GdbIndex => letter.wrapping_sub(113),
            Formula::NameIndex => letter,
        }
    }

    /// The hash of no bytes.
    pub(crate) fn start(self) -> u32
        ensures { result ≡ start self }
    {
        match self {
            Formula::GdbIndex => 0,
            Formula::NameIndex => 5381,
        }
    }
}
