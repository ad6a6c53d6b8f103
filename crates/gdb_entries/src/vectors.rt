//! What the definitions give, computed by the checker, beside what gdb 16.3 has in an index that it writes itself. Each
//! function does nothing: its contract is what is the same.

ghost use Rattle.gdb_entries.specs.Vectors.{Lists, ListsAda};
ghost use Rattle.gdb_entries.specs.MadeFile.{made_file, made_names, ada_names};

/// A program with units of C, C++, Rust, Ada, Fortran, D and Go, and partial units that are imported and one that isn't.
pub fn made_program()
    ensures { Lists made_file made_names }
{}

/// Names of Ada.
pub fn names_of_ada()
    ensures { ListsAda ada_names }
{}
