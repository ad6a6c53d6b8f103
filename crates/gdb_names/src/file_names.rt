//! That the names of a file's items are made of what this crate gives. The function does nothing: its contract is the law.

ghost use Rattle.gdb_names.specs.FileNames.{ComponentsAreOfTheirUnits, FullNamesStandBehindPaths, FrontsStandBeforeNames, ItemsAreListedByBoth};

/// What gdb lists of an item, by the names and classes that the file gives.
pub fn names_of_files()
    ensures components { ComponentsAreOfTheirUnits }
    ensures full { FullNamesStandBehindPaths }
    ensures fronts { FrontsStandBeforeNames }
    ensures listed { ItemsAreListedByBoth }
{}
