//! The `.gdb_index`, versions 8 and 9 (GDB manual, "Index Section Format").

ghost use Rattle.index_alike.specs.GdbAlike.{ElementsAreApart, GdbIndex8ReadsAlike, GdbIndex9ReadsAlike, NumbersAreApart};

/// The `.gdb_index` of an accepted file has no fault, wherever it isn't too large. It gives of each name the elements of the
/// entries that have it, each once, and of each address the number of the unit at the address. Version 9 says the file's main,
/// and version 8 none.
pub fn gdb_index_reads_alike()
    ensures version_8 { GdbIndex8ReadsAlike }
    ensures version_9 { GdbIndex9ReadsAlike }
{}

/// No two units have one number in a `.gdb_index`. Of at most 2^24 units, entries with one element have one unit and one kind,
/// and both are static or neither is.
pub fn gdb_elements_are_apart()
    ensures numbers { NumbersAreApart }
    ensures elements { ElementsAreApart }
{}
