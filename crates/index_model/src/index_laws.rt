//! Laws of the index formats and of the core. Each is the contract of a function that does nothing.

ghost use Rattle.index_model.specs.LawsIndex.{EachNameHasItsSlot, EachNameIsPlaced, NoOtherPieces, PathFindsAll, PathHasEachSlot, PiecesAreMaximal, PiecesHaveTheUnits};
ghost use Rattle.index_model.specs.LawsCore.{CoreIsRight, LevelsFollow, StagesFollow, StatesGoOn};
ghost use Rattle.index_model.specs.LawsMachine.{EachJobOnce};
ghost use Rattle.index_model.specs.Outputs.{Made};
ghost use Rattle.index_model.specs.Queries.{Query};

/// The pieces of the address space are the maximal ranges in which one unit is the unit at the address, and there are no
/// others.
pub fn pieces_are_maximal()
    ensures units { PiecesHaveTheUnits }
    ensures maximal { PiecesAreMaximal }
    ensures no_others { NoOtherPieces }
{}

/// Each slot of a table, the number of whose slots is a power of two, is among the first so many places of every path (GDB
/// manual, "Index Section Format").
pub fn path_has_each_slot()
    ensures { PathHasEachSlot }
{}

/// Each name of an index has a slot of its own: the first on its path that no name before it has.
pub fn each_name_has_its_slot()
    ensures first { EachNameIsPlaced }
    ensures own { EachNameHasItsSlot }
{}

/// In a `.gdb_index` without a fault, what is found on the path of a name is what all slots together have of it.
pub fn path_finds_all()
    ensures { PathFindsAll }
{}

/// No job of the core is drawn twice, and no job's output is taken twice.
pub fn each_job_once()
    ensures { EachJobOnce Made Query }
{}

/// Each state of the core is right, over every cut of a file's units and every list of events of any actors in which the
/// output of each job is one for it: what it has published is what the file means, its fault is the first of the file, and
/// each look has the file's reply at the stage.
pub fn core_is_right()
    ensures { CoreIsRight }
{}

/// After each event of the core comes a state of it. Its stage is reachable from the stage before, and its level is that
/// which a step into this stage gives.
pub fn core_goes_on()
    ensures states { StatesGoOn }
    ensures stages { StagesFollow }
    ensures levels { LevelsFollow }
{}
