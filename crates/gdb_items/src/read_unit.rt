//! What was read of a unit.

ghost use Rattle.std.specs.Prelude.{◌≡◌, ◌==◌, find, IfOk};
ghost use Rattle.std.specs.List.Sorted.{IsNonDecreasingBy};
ghost use Rattle.gdb_items.specs.Read.{items_in};

use crate::item::UnitItem;
use crate::which::Which;
use ix_base::NoMemory;
use std::sync::Arc;

/// What was read of a unit: those of its items, in section order. Who holds them can go over them while more of the file is read.
#[derive(Drop)]
pub struct ReadUnit<'f> {
    pub which: Which,
    pub items: Arc<Vec<UnitItem<'f>>>,
}

impl<'f> ReadUnit<'f> {
    /// The item at a joint offset, among items whose offsets rise.
    pub(crate) fn at(&self, offset: u64) -> Option<UnitItem<'f>>
        ensures { IsNonDecreasingBy (λ i. i.offset) (items_in self.now) → result ≡ find (λ i. i.offset == offset) (items_in self.now) }
    {
        item_at(self.items.as_slice(), offset)
    }

    /// The same items, held once more.
    pub(crate) fn share(&self) -> Result<ReadUnit<'f>, NoMemory>
        ensures which { IfOk result (λ read. read.which ≡ self.now.which) }
        ensures items { IfOk result (λ read. items_in read ≡ items_in self.now) }
    {
        Ok(ReadUnit {
            which: self.which,
            items: Arc::try_clone(&self.items)?,
        })
    }
}

// The same, among a list of items.
fn item_at<'f>(items: &[UnitItem<'f>], offset: u64) -> Option<UnitItem<'f>>
    ensures { IsNonDecreasingBy (λ i. i.offset) items.now → result ≡ find (λ i. i.offset == offset) items.now }
{
    let place = items.partition_point(|item| item.offset < offset);
    let item = *items.get(place)?;
    (item.offset == offset).then_some(item)
}
