//! How a build ends.

ghost use Rattle.std.specs.Prelude.{◌≡◌, ◌≤◌};
ghost use Rattle.index_model.specs.Stages.{cache_written, stopped};
ghost use Rattle.index_pool.specs.Ends.{stage_at_end};

/// How a build ended.
#[derive(Clone, Copy, Debug, PartialEq, Eq)]
pub enum Ended {
    /// The index is written, stage 3.
    Done,
    /// The file has a fault, stage 4.
    Refused,
    /// Memory was refused, stage 5.
    Stopped,
}

/// How a build has ended that is at this stage.
pub(crate) fn ended_at(stage: u8) -> Ended
    requires least { cache_written ≤ stage }
    requires range { stage ≤ stopped }
    ensures { stage ≡ stage_at_end result }
{
    match stage {
        3 => Ended::Done,
        4 => Ended::Refused,
        _ => Ended::Stopped,
    }
}
