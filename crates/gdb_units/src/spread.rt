//! What a unit takes that isn't partial: the partial units that it reaches and that have no owner yet.

ghost use Rattle.std.specs.Prelude.{◌≡◌, ◌<◌, OnOk, Some, if◌then◌else◌, slice_set, length};
ghost use Rattle.gdb_units.specs.Imported.{targets_in};
ghost use Rattle.gdb_units.specs.Spread.{Claims, Spreads, is_free};

use ix_base::NoMemory;
use std::alloc::Global;

/// Gives the owner each partial unit that it imports, itself or through partial units, and that has none. What a unit with an
/// owner imports has one already, so each is looked at once, whichever owner comes to it.
pub(crate) fn spread(
    alloc: Global,
    targets: &[Vec<usize>],
    owner: usize,
    owners: &mut [Option<usize>],
) -> Result<(), NoMemory>
    requires within { owner < length targets.now }
    requires length { length owners.old ≡ length targets.now }
    ensures length { length owners.new ≡ length owners.old }
    ensures spreads { OnOk result (Spreads (targets_in targets.now) owner owners.old owners.new) }
{
    let mut waiting = Vec::new(alloc);
    waiting.push(owner)?;
    while let Some(unit) = waiting.pop() {
        claim_each(targets[unit].as_slice(), owner, owners, &mut waiting)?;
    }
    Ok(())
}

// Gives the owner each of these units that has none. They then wait to be looked at.
fn claim_each(
    units: &[usize],
    owner: usize,
    owners: &mut [Option<usize>],
    waiting: &mut Vec<usize>,
) -> Result<(), NoMemory>
    ensures length { length owners.new ≡ length owners.old }
    ensures claims { OnOk result (Claims units.now owner owners.old waiting.old.items owners.new waiting.new.items) }
{
    for unit in units {
        if claim(owners, *unit, owner) {
            waiting.push(*unit)?;
        }
    }
    Ok(())
}

// Gives the owner the unit, if there is such a unit and it has none. Whether it did.
fn claim(owners: &mut [Option<usize>], unit: usize, owner: usize) -> bool
    ensures free { result ≡ is_free owners.old unit }
    ensures owners { owners.new ≡ (if is_free owners.old unit then slice_set owners.old unit (Some owner) else owners.old) }
{
    match owners.get(unit) {
        Some(None) => {
            owners[unit] = Some(owner);
            true
        }
        _ => false,
    }
}
