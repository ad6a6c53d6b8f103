//! How the units of a file are read.

ghost use Rattle.std.specs.Prelude.{◌≡◌, option_and_then, slice_get};

use gdb_items::Reading;

/// How the unit with this number is read, if it is.
pub(crate) fn reading_at(readings: &[Option<Reading>], unit: u32) -> Option<Reading>
    ensures { result ≡ option_and_then (λ reading. reading) (slice_get readings.now unit) }
{
    *readings.get(unit as usize)?
}
