//! What is told of the units of a file.

/// What is told of a unit's root.
#[derive(Clone, Copy, Debug)]
pub struct UnitRoot {
    /// The joint offset of the root. None where the unit has no entries.
    pub offset: Option<u64>,
    /// Whether it is the root of a partial unit.
    pub partial: bool,
}
