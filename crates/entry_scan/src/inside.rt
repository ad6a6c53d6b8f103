//! An entry inside the children of another.

ghost use Rattle.std.specs.Prelude.{◌≡◌, ◌≤◌, ◌<◌, ◌+◌, ◌^◌, length, find, Contains, ◌==◌};
ghost use Rattle.index_model.specs.ShardParts.{spans_of, item_in_span};
ghost use Rattle.index_model.specs.Walk.{items};
ghost use Rattle.entry_scan.specs.Inside.{walked_of};

use crate::abbreviations::Abbrevs;
use crate::item::Item;
use crate::walk::Walk;
use index_model::{Span, Unit};

/// The entry at a joint offset inside a span of the unit, None where no entry inside has it (DWARF 5, section 2.3). `bytes`
/// and `abbrevs` are as for `Walk::new`. What stands before the span isn't read.
pub fn item_at<'a>(
    bytes: &'a [u8],
    unit: &Unit,
    abbrevs: &'a Abbrevs,
    span: &Span,
    offset: u64,
) -> Option<Item<'a>>
    requires header { unit.now.body ≤ length bytes.now }
    requires small { unit.now.start + length bytes.now < 2 ^ 63 }
    requires span { Contains (spans_of (walked_of unit.now abbrevs.now bytes.now span.now.unit)) span.now }
    ensures { result ≡ item_in_span (walked_of unit.now abbrevs.now bytes.now span.now.unit) span.now offset }
{
    if offset < span.from || offset >= span.to {
        return None;
    }
    let mut walk = Walk::inside(bytes, unit, abbrevs, span);
    walk_to(&mut walk, offset)
}

// The entry at an offset among those that are still to come.
fn walk_to<'a>(walk: &mut Walk<'a>, offset: u64) -> Option<Item<'a>>
    ensures { result ≡ find (λ d. d.at == offset) (items walk.old) }
{
    while let Ok(Some(item)) = walk.next() {
        if item.offset() == offset {
            return Some(item);
        }
        if item.after() > offset {
            return None;
        }
    }
    None
}
