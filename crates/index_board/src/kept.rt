//! The published parts that a reader keeps, shared with the core and with other readers.

ghost use Rattle.std.specs.Prelude.{◌≡◌};
ghost use Rattle.std.specs.Option.{option_or};
ghost use Rattle.stage_core.specs.Outputs.{parts_seen};
ghost use Rattle.index_board.specs.Kept.{no_parts, filled};

use stage_core::Parts;

/// No part is kept.
pub(crate) fn nothing<'f>() -> Parts<'f>
    ensures { parts_seen result ≡ no_parts }
{
    Parts {
        summary: None,
        table: None,
        cache: None,
        fault: None,
    }
}

/// Keeps the parts that aren't kept yet. Those that are stay.
pub(crate) fn fill<'f>(kept: &mut Parts<'f>, more: Parts<'f>)
    ensures { parts_seen kept.new ≡ filled (parts_seen kept.old) (parts_seen more.entry) }
{
    let Parts {
        summary,
        table,
        cache,
        fault,
    } = more;
    keep(&mut kept.summary, summary);
    keep(&mut kept.table, table);
    keep(&mut kept.cache, cache);
    keep(&mut kept.fault, fault);
}

// Keeps a part that isn't kept yet.
fn keep<T: Drop>(kept: &mut Option<T>, more: Option<T>)
    ensures { kept.new ≡ option_or kept.old more }
{
    if kept.is_none() {
        *kept = more;
    }
}
