//! What is kept of an index is whole: laws over the definitions. Each law is a clause of a function that does nothing.
#![tactic(auto)]

ghost use Rattle.kept_alike.specs.KeptAlike.{CutIndexesAreRefused, IndexesAreKept, KeptIndexesOpen};

/// What is kept of an index with a build-id reads as the index. The `.gdb_index` of version 9 of an accepted file, wherever it isn't
/// too large, opens when it is kept, and no proper prefix of what is kept does. So a file that a failed store left opens only where
/// it is whole.
pub fn kept_indexes_open_whole_alone()
    ensures kept { IndexesAreKept }
    ensures whole { KeptIndexesOpen }
    ensures cut { CutIndexesAreRefused }
{}
