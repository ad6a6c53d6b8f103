//! What a shard keeps of one unit, and which entries are linked.

ghost use Rattle.std.specs.Prelude.{◌≡◌, ◌<◌, length, IfSome, is_some, option_map, position, slice_get};
ghost use Rattle.std.specs.Arc.{arc_value};
ghost use Rattle.index_model.specs.ShardLanguages.{root_in};
ghost use Rattle.range_lists.specs.Nodes.{is_linked, EntriesRise};

use index_model::{LinkedEntry, Shard, root_in};
use std::sync::Arc;

/// The index of the shard whose run has the unit.
pub(crate) fn run_of(shards: &[Arc<Shard<'_>>], unit: u32) -> Option<usize>
    ensures value { result ≡ position (λ s. is_some (root_in unit (arc_value s))) shards.now }
    ensures within { IfSome result (λ k. k < length shards.now) }
{
    shards
        .iter()
        .position(|shard| root_in(shard, unit).is_some())
}

/// Whether the entry at the offset is one of these, whose offsets rise.
pub(crate) fn is_linked(entries: &[LinkedEntry<'_>], offset: u64) -> bool
    ensures { EntriesRise entries.now → result ≡ is_linked entries.now offset }
{
    let place = entries.partition_point(|entry| entry.offset < offset);
    match offset_at(entries, place) {
        Some(found) => found == offset,
        None => false,
    }
}

// The offset of the entry at a place.
fn offset_at(entries: &[LinkedEntry<'_>], place: usize) -> Option<u64>
    ensures { result ≡ option_map (λ e. e.offset) (slice_get entries.now place) }
{
    Some(entries.get(place)?.offset)
}
