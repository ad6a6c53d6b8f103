//! The partial units of a file, by where their roots stand.

ghost use Rattle.std.specs.Prelude.{◌≡◌, IfOk};
ghost use Rattle.std.specs.List.Sorted.{IsNonDecreasingBy};
ghost use Rattle.gdb_units.specs.Imported.{partial_root, partial_roots, unit_at};

use crate::units::UnitRoot;
use ix_base::NoMemory;
use std::alloc::Global;

/// The root of a partial unit.
#[derive(Clone, Copy)]
pub(crate) struct PartialRoot {
    /// The joint offset of the root.
    pub(crate) offset: u64,
    /// The number of the unit.
    pub(crate) unit: usize,
}

/// The roots of the partial units, in section order.
pub(crate) fn partial_roots(alloc: Global, units: &[UnitRoot]) -> Result<Vec<PartialRoot>, NoMemory>
    ensures { IfOk result (λ v. v.items ≡ partial_roots units.now) }
{
    let mut found = Vec::new(alloc);
    for (number, unit) in units.iter().enumerate() {
        if let Some(root) = partial_root(number, unit) {
            found.push(root)?;
        }
    }
    Ok(found)
}

// The root of the unit with this number, if it is that of a partial one.
fn partial_root(number: usize, unit: &UnitRoot) -> Option<PartialRoot>
    ensures { result ≡ partial_root (number, unit.now) }
{
    if !unit.partial {
        return None;
    }
    let offset = unit.offset?;
    Some(PartialRoot {
        offset,
        unit: number,
    })
}

/// The number of the partial unit whose root stands at the offset.
pub(crate) fn unit_at(roots: &[PartialRoot], offset: u64) -> Option<usize>
    ensures { IsNonDecreasingBy (λ r. r.offset) roots.now → result ≡ unit_at roots.now offset }
{
    let place = roots.partition_point(|root| root.offset < offset);
    let root = *roots.get(place)?;
    (root.offset == offset).then_some(root.unit)
}
