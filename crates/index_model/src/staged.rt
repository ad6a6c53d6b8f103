//! Values that have a stage.

ghost use Rattle.std.specs.Prelude.{◌≡◌, ◌≤◌, ℕ};
ghost use Rattle.index_model.specs.Stages.{stopped, IsReachable};

/// A value that goes from stage to stage by events: 0 initial, 1 main available, 2 finalised, 3 cache written, 4 refused and
/// 5 stopped.
pub trait Staged {
    /// What no event changes. Contracts see it, and no value of it is made.
    type Subject;

    // The stage of a value.
    ghost stage_of: { Self → ℕ };

    // The subject of a value.
    ghost subject: { Self → Self.Subject };

    // The second value comes from the first by one event, or is the first.
    ghost follows: { Self → Self → Type 0 };

    // This stage fits this subject.
    ghost fits: { Self.Subject → ℕ → Type 0 };

    /// The stage, 0 to 5. It fits the subject.
    fn stage(&self) -> u8
        ensures stage { result ≡ stage_of self.now }
        ensures range { result ≤ stopped }
        ensures fits { fits (subject self.now) result };

    // What follows a value has its subject.
    ghost stays: { (x y : Self) → follows x y → subject y ≡ subject x };

    // What follows a value has a stage that is reachable from the value's own.
    ghost goes_on: { (x y : Self) → follows x y → IsReachable (stage_of x) (stage_of y) };
}
