//! The places of a unit's items.

ghost use Rattle.std.specs.Prelude.{◌≡◌, ◌++◌, ◌∷◌, [], true, List, Contains, IfOk, OnOk, Some, is_some, map};
ghost use Rattle.std.specs.List.{AllZip};
ghost use Rattle.index_model.specs.Program.{Located, Walked};
ghost use Rattle.index_model.specs.Walk.{Item};
ghost use Rattle.gdb_entries.specs.Chains.{name_of};
ghost use Rattle.gdb_entries.specs.Owners.{class_read};
ghost use Rattle.gdb_entries.specs.Files.{ForProgram};
ghost use Rattle.gdb_items.specs.Items.{kept_of, IsItemOf};
ghost use Rattle.gdb_items.specs.declared.which.Which.{Which};
ghost use Rattle.gdb_reach.specs.Standing.{ComesBehind, StandsFor, in_unit};
ghost use Rattle.gdb_scopes.specs.Places.{place_of, unit_read};

use crate::name::name_of;
use crate::place::Place;
use gdb_entries::LanguageClass;
use gdb_items::{FileItems, UnitItem};
use gdb_reach::Reached;
use ix_base::NoMemory;
use std::alloc::Global;

/// The places of what is read of a unit, which gdb reads by this class.
pub(crate) fn places_of<'f>(
    alloc: Global,
    file: &mut FileItems<'_, 'f>,
    class: LanguageClass,
    items: &[UnitItem<'f>],
) -> Result<Vec<Place>, NoMemory>
    ensures value { ForProgram file.old.file (λ p. (w : Walked) (which : Which) → Contains p.walks w → class_read p w ≡ Some class → AllZip (IsItemOf p.sections) items.now (kept_of which w) → IfOk result (λ places. places.items ≡ map (place_of p class) (kept_of which w))) }
    ensures kept { file.new ≡ file.old }
{
    let mut reached = Reached::new(alloc, class);
    let mut places = Vec::new(alloc);
    for item in items {
        places.push(place_of(alloc, file, class, &mut reached, item)?)?;
    }
    Ok(places)
}

// The place of the next item of a unit, which is entered.
fn place_of<'f>(
    alloc: Global,
    file: &mut FileItems<'_, 'f>,
    class: LanguageClass,
    reached: &mut Reached,
    item: &UnitItem<'f>,
) -> Result<Place, NoMemory>
    ensures is { ForProgram file.old.file (λ p. (w : Walked) (passed : List Item) (d : Item) → class_read p w ≡ Some class → StandsFor (unit_read p class w) passed reached.old → ComesBehind w passed d → IsItemOf p.sections item.now (in_unit w d) → IfOk result (λ place. place ≡ place_of p class (in_unit w d))) }
    ensures stands { ForProgram file.old.file (λ p. (w : Walked) (passed : List Item) (d : Item) → class_read p w ≡ Some class → StandsFor (unit_read p class w) passed reached.old → ComesBehind w passed d → IsItemOf p.sections item.now (in_unit w d) → OnOk result (StandsFor (unit_read p class w) (passed ++ d ∷ []) reached.new)) }
    ensures kept { file.new ≡ file.old }
{
    let look = reached.look(item.depth, &item.facts);
    let open_around = reached.open_around(item.depth);
    let has_name = has_name(alloc, file, class, item, look.is_seen)?;
    reached.enter(item.depth, &item.facts, has_name, item.offset)?;
    Ok(Place {
        offset: item.offset,
        is_seen: look.is_seen,
        around: look.around,
        open_around,
    })
}

// Whether an item has a name by its chain, where it is looked at and has children. Elsewhere the chain isn't followed.
fn has_name<'f>(
    alloc: Global,
    file: &mut FileItems<'_, 'f>,
    class: LanguageClass,
    item: &UnitItem<'f>,
    is_seen: bool,
) -> Result<bool, NoMemory>
    ensures value { ForProgram file.old.file (λ p. (d : Located) → IsItemOf p.sections item.now d → is_seen ≡ true → d.item.children ≡ true → IfOk result (λ has. has ≡ is_some (name_of p class d))) }
    ensures kept { file.new ≡ file.old }
{
    if !is_seen || !item.facts.children {
        return Ok(false);
    }
    let chain = file.chain(alloc, item)?;
    Ok(name_of(class, item.facts.tag, chain.name).is_some())
}
