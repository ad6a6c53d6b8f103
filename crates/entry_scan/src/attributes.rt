//! The attributes of an entry.

ghost use Rattle.std.specs.Prelude.{◌≡◌};
ghost use Rattle.std.specs.Iterator.{YieldsFirstBy, item_count};
ghost use Rattle.entry_scan.specs.Values.{values_at, value_read, IsRead};

use crate::abbreviation::Spec;
use crate::values::{UnitFormat, read};
use index_model::Value;
use ix_base::Cursor;
use std::marker::Model;

/// The attributes of an entry that are still to come, each with its value, in the order of the entry. Contracts see them
/// as a list.
#[derive(Drop)]
pub struct Attributes<'a> {
    specs: &'a [Spec],
    cursor: Cursor<'a>,
    format: UnitFormat,
}

impl<'a> Model for Attributes<'a> {
    ghost use Rattle.std.specs.Prelude.{List, ℕ};
    ghost use Rattle.index_model.specs.Forms.{Value as ValueOf};

    ghost Value = { List (ℕ × ValueOf) };

    ghost use Rattle.entry_scan.specs.Values.{values_at, value_read, IsRead};

    ghost view = { λ a. value_read (values_at a.format a.specs.now a.cursor) };

    ghost invariant = { λ a. IsRead (values_at a.format a.specs.now a.cursor) };
}

impl<'a> Attributes<'a> {
    ghost use Rattle.entry_scan.specs.Values.{values_at, value_read, IsRead};

    // The attributes whose values begin at the cursor.
    pub(crate) fn new(specs: &'a [Spec], cursor: Cursor<'a>, format: UnitFormat) -> Attributes<'a>
        requires { IsRead (values_at format specs.now cursor) }
        ensures { result ≡ value_read (values_at format specs.now cursor.entry) }
    {
        Attributes {
            specs,
            cursor,
            format,
        }
    }
}

impl<'a> Iterator for Attributes<'a> {
    ghost use Rattle.entry_scan.specs.Values.{pair_seen};

    type Item = (u64, Value<'a>);

    ghost next_gives = { YieldsFirstBy pair_seen (λ values. values) };

    ghost remaining = { item_count (λ values. values) };

    fn next(&mut self) -> Option<(u64, Value<'a>)> {
        let (spec, others) = self.specs.split_first()?;
        match read(spec, self.format, &mut self.cursor) {
            Err(_) => None,
            Ok(value) => {
                self.specs = others;
                Some((spec.attribute, value))
            }
        }
    }
}
