//! What each step of the lock tells the pass that makes it.

ghost use Rattle.stage_lock.specs.Moves.{tries_turn, notes_stage, adds_mark, publishes, unlocks, settles};
ghost use Rattle.stage_lock.specs.Rule.{parted, newcomer, joined, spent};

use crate::known::Known;
use atomic_table::{Join, Play, Split};
use index_model::Staged;

/// The turn is won, or is taken.
pub struct Win;

impl<V: Staged> Play<Option<V>, Known<V, V::Subject>> for Win {
    ghost then = { tries_turn };
}

/// The pass with the turn loads the stage, and takes the value out.
pub struct Note;

impl<V: Staged> Play<Option<V>, Known<V, V::Subject>> for Note {
    ghost then = { notes_stage V.stage_of V.subject };
}

/// The stage is loaded and added to the marks.
pub struct Mark;

impl<V: Staged> Play<Option<V>, Known<V, V::Subject>> for Mark {
    ghost then = { adds_mark V.stage_of V.fits };
}

/// The pass with the turn stores the stage, and the value comes home.
pub struct Publish;

impl<V: Staged> Play<Option<V>, Known<V, V::Subject>> for Publish {
    ghost then = { publishes };
}

/// The turn is given up.
pub struct Unlock;

impl<V: Staged> Play<Option<V>, Known<V, V::Subject>> for Unlock {
    ghost then = { unlocks };
}

/// After a join the stage is loaded, and both old floors go.
pub struct Settle;

impl<V: Staged> Play<Option<V>, Known<V, V::Subject>> for Settle {
    ghost then = { settles };
}

/// A new pass comes from an old one, and each has half of its share.
pub struct SplitPass;

impl<V: Staged> Split<Known<V, V::Subject>> for SplitPass {
    ghost left = { parted };

    ghost right = { newcomer };
}

/// A pass is taken in by another.
pub struct JoinPass;

impl<V: Staged> Join<Known<V, V::Subject>> for JoinPass {
    ghost both = { joined };

    ghost spent = { spent };
}
