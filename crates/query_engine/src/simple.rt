//! How entries are found by their simple names.

ghost use Rattle.std.specs.Prelude.{IsTrue, All};
ghost use Rattle.query_engine.specs.Labels.{IsWholeLabel};

use crate::label::Label;
use crate::names::SortedNames;

/// The distinct simple names, ascending.
#[derive(Drop)]
pub(crate) enum SimpleNames {
    /// Each entry's name is its simple name, so they are the names.
    Shared,
    Own(SortedNames),
}

/// Whether each name is a simple name. Linkage entries have none.
pub(crate) fn are_whole(labels: &[Label<'_>]) -> bool
    ensures { IsTrue result → All (λ l. IsWholeLabel l.linkage l.tail l.name.now) labels.now }
{
    for label in labels {
        if !label.is_whole() {
            return false;
        }
    }
    true
}
