//! The forms of indexes.

ghost use Rattle.std.specs.Prelude.{◌≡◌};
ghost use Rattle.index_forms.specs.Forms.{by_gdb, kind_of, version_number};

use index_model::CacheKind;

/// A version of the `.gdb_index` (GDB manual, "Index Section Format").
#[derive(Clone, Copy, Debug, PartialEq, Eq)]
pub enum GdbVersion {
    Eight,
    Nine,
}

impl GdbVersion {
    /// Its number.
    pub fn number(self) -> u8
        ensures { result ≡ version_number self }
    {
        match self {
            GdbVersion::Eight => 8,
            GdbVersion::Nine => 9,
        }
    }
}

/// The index that a file gets.
#[derive(Clone, Copy)]
pub enum IndexForm {
    /// Of the entries that an index lists by DWARF (DWARF 5, section 6.1.1.1).
    ByDwarf(CacheKind),
    /// A `.gdb_index` of the entries that gdb itself lists in one.
    ByGdb(GdbVersion),
}

impl IndexForm {
    /// The index of this kind of the entries that gdb lists. None for a `.debug_names`, in which gdb lists others.
    pub fn by_gdb(kind: CacheKind) -> Option<IndexForm>
        ensures { result ≡ by_gdb kind }
    {
        match kind {
            CacheKind::Gdb8 => Some(IndexForm::ByGdb(GdbVersion::Eight)),
            CacheKind::Gdb9 => Some(IndexForm::ByGdb(GdbVersion::Nine)),
            CacheKind::Names => None,
        }
    }

    /// The kind of the index.
    pub fn kind(self) -> CacheKind
        ensures { result ≡ kind_of self }
    {
        match self {
            IndexForm::ByDwarf(kind) => kind,
            IndexForm::ByGdb(GdbVersion::Eight) => CacheKind::Gdb8,
            IndexForm::ByGdb(GdbVersion::Nine) => CacheKind::Gdb9,
        }
    }
}
