//! What the entries of units are to those of a program. The function does nothing: its contract is the law.

ghost use Rattle.gdb_index.specs.Listed.{ProgramsListTheirUnits};

/// What is listed of a program is what is listed of its units, one after the other.
pub fn programs_list_their_units()
    ensures { ProgramsListTheirUnits }
{}
