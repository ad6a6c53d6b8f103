//! The `.gdb_index` by gdb's rules, read back (GDB manual, "Index Section Format").

ghost use Rattle.listed_alike.specs.ListedAlike.{ListedIndex8ReadsAlike, ListedIndex9ReadsAlike};

/// The `.gdb_index` of what gdb lists of an accepted file has no fault, wherever it isn't too large. It gives of each name the elements
/// of the entries that gdb lists under it, each once, and of each address the number of the unit at the address. Version 9 says the
/// file's main where gdb lists its name, and version 8 says none.
pub fn listed_index_reads_alike()
    ensures version_8 { ListedIndex8ReadsAlike }
    ensures version_9 { ListedIndex9ReadsAlike }
{}
