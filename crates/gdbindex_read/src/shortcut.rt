//! The shortcut to main, in version 9.

ghost use Rattle.std.specs.Prelude.{◌≡◌, option_map};
ghost use Rattle.index_model.specs.GdbIndexRead.{shortcut_at};
ghost use Rattle.index_model.specs.Gives.{GivesAlways};
ghost use Rattle.gdbindex_read.specs.Areas.{areas_seen, HasShortcut};
ghost use Rattle.gdbindex_read.specs.Shortcut.{shortcut_seen};

use crate::area::{fault, u32_at};
use crate::areas::Areas;
use crate::slots::string_at;
use index_model::index_code::GDB_BAD_NAME;
use ix_base::Fault;

/// The language of main, which isn't 0, and its name.
#[derive(Clone, Copy)]
pub(crate) struct Shortcut<'a> {
    pub language: u32,
    pub name: &'a [u8],
}

impl<'a> Shortcut<'a> {
    /// The shortcut of an index, if it has one, or the fault that its name has no end.
    pub fn open(areas: &Areas<'a>) -> Result<Option<Shortcut<'a>>, Fault>
        requires { HasShortcut areas.now }
        ensures { GivesAlways (λ m. option_map shortcut_seen m) result (shortcut_at (areas_seen areas.now)) }
    {
        let bytes = areas.shortcut.bytes;
        if bytes.is_empty() {
            return Ok(None);
        }
        let language = u32_at(bytes, 0);
        if language == 0 {
            return Ok(None);
        }
        match string_at(areas.pool.bytes, u32_at(bytes, 4)) {
            Some(name) => Ok(Some(Shortcut { language, name })),
            None => Err(fault(GDB_BAD_NAME, areas.shortcut.at)),
        }
    }
}
