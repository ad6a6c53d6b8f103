//! The core as a value with a stage.

use crate::machine::Core;
use index_model::{CacheKind, Staged, Unit};
use std::marker::Model;

/// What no event of a core changes: the bytes of the file, the runs of its numbered units, and the kind of the index. No value
/// of it is made.
#[derive(Drop)]
pub struct About {
    pub file: Vec<u8>,
    pub runs: Vec<Vec<(u32, Unit)>>,
    pub cache: CacheKind,
}

impl Model for About {
    ghost use Rattle.index_model.specs.Outputs.{Subject};

    ghost Value = { Subject };

    ghost use Rattle.stage_core.specs.Abouts.{about_seen};

    ghost view = { about_seen };
}

impl Staged for Core<'_> {
    ghost use Rattle.stage_core.specs.Machines.{Follows, FitsFile, stage_of};
    ghost use Rattle.stage_core.specs.Following.{stays, goes_on};

    type Subject = About;

    ghost stage_of = { stage_of };

    ghost subject = { λ c. c.subject };

    ghost follows = { Follows };

    ghost fits = { FitsFile };

    fn stage(&self) -> u8 {
        self.current_stage()
    }

    ghost stays = { stays };

    ghost goes_on = { goes_on };
}
