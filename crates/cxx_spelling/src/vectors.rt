//! What the definition gives for some names, computed by the checker. Each function does nothing: its contract is a group of
//! names, with the spelling that a release of gdb has for them in an index that it writes.

ghost use Rattle.cxx_spelling.specs.Vectors.{Types, Declarators, Constants, Kept, Functions, Numbers, Characters, KeptBy16};

/// Types and names with arguments.
pub fn types()
    ensures { Types }
{}

/// Pointers, references, arrays and functions, and conversion functions.
pub fn declarators()
    ensures { Declarators }
{}

/// Constants as arguments.
pub fn constants()
    ensures { Constants }
{}

/// What the grammar refuses.
pub fn kept()
    ensures { Kept }
{}

/// Types of functions as arguments in gdb 16.
pub fn functions()
    ensures { Functions }
{}

/// Integer literals in gdb 16.
pub fn numbers()
    ensures { Numbers }
{}

/// Characters in gdb 16.
pub fn characters()
    ensures { Characters }
{}

/// What the grammar refuses in gdb 16.
pub fn kept_by_16()
    ensures { KeptBy16 }
{}
