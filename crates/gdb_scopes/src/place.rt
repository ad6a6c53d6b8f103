//! Where an item stands, as gdb comes to it.

ghost use Rattle.std.specs.Prelude.{◌≡◌, ◌==◌, find};
ghost use Rattle.std.specs.List.Sorted.{IsNonDecreasingBy};

/// Where an item of a unit that is read stands.
#[derive(Clone, Copy)]
pub(crate) struct Place {
    /// The joint offset of the item.
    pub offset: u64,
    /// Whether gdb looks at the item.
    pub is_seen: bool,
    /// The joint offset of the innermost open item around it, if gdb comes to it.
    pub around: Option<u64>,
    /// The same, whether or not gdb comes to it.
    pub open_around: Option<u64>,
}

/// The place of the item at a joint offset, among places whose offsets rise.
pub(crate) fn place_at(places: &[Place], offset: u64) -> Option<Place>
    ensures { IsNonDecreasingBy (λ x. x.offset) places.now → result ≡ find (λ x. x.offset == offset) places.now }
{
    let point = places.partition_point(|place| place.offset < offset);
    let place = *places.get(point)?;
    (place.offset == offset).then_some(place)
}
