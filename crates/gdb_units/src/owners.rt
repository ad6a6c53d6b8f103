//! The owners of units.

ghost use Rattle.std.specs.Prelude.{◌≡◌, ℕ, List, Option, IfOk, length, option_and_then, slice_get};
ghost use Rattle.gdb_units.specs.Given.{AreOwnersFor};
ghost use Rattle.gdb_units.specs.Imported.{targets_in};
ghost use Rattle.gdb_units.specs.Spread.{OwnedBelow, own_alone};

use crate::imported::imported;
use crate::spread::spread;
use crate::units::UnitRoot;
use index_model::Import;
use ix_base::NoMemory;
use std::alloc::Global;
use std::marker::Model;

/// Of each unit the number of its owner. That of a partial unit is the first other unit that imports it, itself or through
/// partial units, if there is one; each other unit owns itself.
#[derive(Drop)]
pub struct Owners {
    owners: Vec<Option<usize>>,
}

impl Model for Owners {
    ghost Value = { List (Option ℕ) };

    ghost view = { λ o. o.owners.items };
}

impl Owners {
    /// The owners of all units of a file, which are given in section order with all their imports.
    pub fn of(alloc: Global, units: &[UnitRoot], imports: &[Import]) -> Result<Owners, NoMemory>
        ensures { IfOk result (λ owners. AreOwnersFor units.now imports.now owners) }
    {
        let targets = imported(alloc, units, imports)?;
        let owners = owners_of(alloc, units, targets.as_slice())?;
        Ok(Owners { owners })
    }

    /// The number of the owner of the unit with this number.
    pub fn owner(&self, unit: usize) -> Option<usize>
        ensures { result ≡ option_and_then (λ o. o) (slice_get self.now unit) }
    {
        *self.owners.get(unit)?
    }
}

// The owners of units of which each imports these partial ones itself.
fn owners_of(
    alloc: Global,
    units: &[UnitRoot],
    targets: &[Vec<usize>],
) -> Result<Vec<Option<usize>>, NoMemory>
    requires { length targets.now ≡ length units.now }
    ensures { IfOk result (λ v. OwnedBelow (length units.now) units.now (targets_in targets.now) v.items) }
{
    let mut owners = own_alone(alloc, units)?;
    for (number, unit) in units.iter().enumerate() {
        if !unit.partial {
            spread(alloc, targets, number, &mut owners)?;
        }
    }
    Ok(owners)
}

// Each unit that isn't partial owns itself, and a partial one has no owner yet.
fn own_alone(alloc: Global, units: &[UnitRoot]) -> Result<Vec<Option<usize>>, NoMemory>
    ensures { IfOk result (λ v. v.items ≡ own_alone units.now) }
{
    let mut owners = Vec::new(alloc);
    for (number, unit) in units.iter().enumerate() {
        owners.push((!unit.partial).then_some(number))?;
    }
    Ok(owners)
}
