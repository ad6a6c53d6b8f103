//! What the lock's rule comes to. The function does nothing.

ghost use Rattle.stage_lock.specs.LockLaws.{RuleHasTheFacts};

use index_model::Staged;

/// The facts hold in every state that the lock's rule allows. The rule holds between any two steps, whichever threads make
/// them and in whatever order.
pub fn facts_hold_between_steps<V: Staged>()
    ensures { RuleHasTheFacts V.stage_of V.subject V.fits }
{}
