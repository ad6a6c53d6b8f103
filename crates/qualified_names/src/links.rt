//! What stands before the names of entries whose references are known to have no fault.

ghost use Rattle.std.specs.Prelude.{◌≡◌, IfOk, OnOk, IsOkAnd};
ghost use Rattle.index_model.specs.Names.{scope_path};
ghost use Rattle.parent_resolve.specs.Components.{AreComponents};
ghost use Rattle.parent_resolve.specs.Paths.{ForEnd};
ghost use Rattle.qualified_names.specs.Indexed.{ForLink, HasLink, IsAroundEnd};
ghost use Rattle.qualified_names.specs.Fronts.{AreFronts};
ghost use Rattle.qualified_names.specs.Paths.{IsFrontAround};

use crate::fronts::{Around, Fronts};
use index_model::LinkedEntry;
use ix_base::{NoMemory, Stop};
use name_forms::scoped;
use parent_resolve::References;
use std::alloc::Global;
use std::mem::replace;

/// Goes to the scope around the last entry of an entry's chain. Most entries share it with the one before. The one that is left
/// is kept with the others.
pub(crate) fn go_around<'f>(
    around: &mut Around,
    fronts: &mut Fronts,
    references: &mut References<'_, 'f>,
    alloc: Global,
    entry: &LinkedEntry<'f>,
) -> Result<(), NoMemory>
    requires link { HasLink references.old entry.now }
    requires around { IsFrontAround references.old around.old.parent around.old.front.items }
    requires fronts { AreFronts references.old fronts.old.kept.items }
    ensures there { ForLink references.old entry.now (λ p k. OnOk result (IsAroundEnd p k around.new.parent)) }
    ensures around { IsFrontAround references.old around.new.parent around.new.front.items }
    ensures fronts { AreFronts references.old fronts.new.kept.items }
    ensures kept { references.new ≡ references.old }
{
    if around.parent == entry.around {
        return Ok(());
    }
    let next = kept_or_formed(fronts, references, alloc, entry)?;
    fronts.put(replace(around, next));
    Ok(())
}

// What stands before the names in the scope around the last entry of an entry's chain, taken out if it is kept.
fn kept_or_formed<'f>(
    fronts: &mut Fronts,
    references: &mut References<'_, 'f>,
    alloc: Global,
    entry: &LinkedEntry<'f>,
) -> Result<Around, NoMemory>
    requires link { HasLink references.old entry.now }
    requires fronts { AreFronts references.old fronts.old.kept.items }
    ensures value { IfOk result (λ a. IsFrontAround references.old a.parent a.front.items) }
    ensures parent { IfOk result (λ a. a.parent ≡ entry.now.around) }
    ensures fronts { AreFronts references.old fronts.new.kept.items }
    ensures kept { references.new ≡ references.old }
{
    match fronts.take(entry.around) {
        Some(kept) => Ok(kept),
        None => around_end(references, alloc, entry),
    }
}

// What stands before the names in the scope around the last entry of an entry's chain.
fn around_end<'f>(
    references: &mut References<'_, 'f>,
    alloc: Global,
    entry: &LinkedEntry<'f>,
) -> Result<Around, NoMemory>
    requires { HasLink references.old entry.now }
    ensures value { IfOk result (λ a. IsFrontAround references.old a.parent a.front.items) }
    ensures parent { IfOk result (λ a. a.parent ≡ entry.now.around) }
    ensures kept { references.new ≡ references.old }
{
    let components = components_of(references, alloc, entry)?;
    let front = scoped(alloc, components.as_slice(), &[])?;
    Ok(Around {
        parent: entry.around,
        front,
    })
}

// What the members of the scope path around the last entry of an entry's chain give.
fn components_of<'f>(
    references: &mut References<'_, 'f>,
    alloc: Global,
    entry: &LinkedEntry<'f>,
) -> Result<Vec<Option<&'f [u8]>>, NoMemory>
    requires { HasLink references.old entry.now }
    ensures value { ForEnd references.old entry.now.around (λ p d. IfOk result (λ v. IsOkAnd (scope_path p d) (AreComponents v))) }
    ensures kept { references.new ≡ references.old }
{
    match references.components(alloc, entry.around, entry.offset) {
        Ok(components) => Ok(components),
        Err(Stop::Memory) => Err(NoMemory),
        Err(Stop::Cause(_)) => unreachable!(),
    }
}
