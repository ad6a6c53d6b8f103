//! Which partial units each unit imports itself.

ghost use Rattle.std.specs.Prelude.{◌≡◌, ◌<◌, ℕ, [], IfOk, OnOk, length};
ghost use Rattle.gdb_units.specs.Imported.{RootsRise, targets_of, targets_in, with_target};

use crate::partial_roots::{PartialRoot, partial_roots, unit_at};
use crate::units::UnitRoot;
use index_model::Import;
use ix_base::NoMemory;
use std::alloc::Global;

/// For each unit the numbers of the partial units that it imports itself, in the order of its imports.
pub(crate) fn imported(
    alloc: Global,
    units: &[UnitRoot],
    imports: &[Import],
) -> Result<Vec<Vec<usize>>, NoMemory>
    ensures length { IfOk result (λ v. length v.items ≡ length units.now) }
    ensures targets { RootsRise units.now → IfOk result (λ v. (u : ℕ) → u < length units.now → targets_in v.items u ≡ targets_of units.now u imports.now) }
{
    let roots = partial_roots(alloc, units)?;
    let mut targets = no_targets(alloc, units.len())?;
    for import in imports {
        if let Some(target) = unit_at(&roots, import.target) {
            add_target(&mut targets, import.unit as usize, target)?;
        }
    }
    Ok(targets)
}

// For each of so many units nothing.
fn no_targets(alloc: Global, count: usize) -> Result<Vec<Vec<usize>>, NoMemory>
    ensures length { IfOk result (λ v. length v.items ≡ count) }
    ensures empty { IfOk result (λ v. (u : ℕ) → targets_in v.items u ≡ []) }
{
    let mut targets = Vec::new(alloc);
    for _ in 0..count {
        targets.push(Vec::new(alloc))?;
    }
    Ok(targets)
}

// Adds a target to those of a unit, if there is such a unit.
fn add_target(targets: &mut [Vec<usize>], unit: usize, target: usize) -> Result<(), NoMemory>
    ensures length { length targets.new ≡ length targets.old }
    ensures added { OnOk result ((u : ℕ) → u < length targets.old → targets_in targets.new u ≡ with_target unit target u (targets_in targets.old u)) }
{
    if unit < targets.len() {
        targets[unit].push(target)?;
    }
    Ok(())
}
