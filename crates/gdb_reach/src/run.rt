//! All items of a unit, one after the other.

ghost use Rattle.std.specs.Prelude.{◌≡◌, ◌++◌, ◌∷◌, [], List, map, filter, Bool, IfOk, OnOk};
ghost use Rattle.index_model.specs.Walk.{Item};
ghost use Rattle.index_model.specs.Program.{items_of};
ghost use Rattle.gdb_reach.specs.Standing.{UnitRead, StandsFor, ComesBehind, IsOfAFile};
ghost use Rattle.gdb_reach.specs.Runs.{IsToldOf, AreTold, KeepsParents, answer_of};

use crate::state::{Look, Reached};
use gdb_entries::{ItemFacts, LanguageClass};
use ix_base::NoMemory;
use std::alloc::Global;

/// What a walk tells of an item.
#[derive(Clone, Copy)]
pub struct ToldItem {
    pub depth: u32,
    pub facts: ItemFacts,
    /// Whether it has a name, its own or by its chain. It counts only where the item is looked at and has children.
    pub has_name: bool,
    pub token: u64,
}

/// What gdb does of an item.
#[derive(Clone, Copy, Debug, PartialEq, Eq)]
pub struct Answer {
    pub look: Look,
    pub is_open: bool,
    /// The token of the innermost open item around it, whether or not gdb comes to it.
    pub open_around: Option<u64>,
}

/// What gdb does of the items of a unit that is read by this class, in their order. Those without children may be left out.
pub fn answers(
    alloc: Global,
    class: LanguageClass,
    items: &[ToldItem],
) -> Result<Vec<Answer>, NoMemory>
    ensures { (r : UnitRead) (keep : Item → Bool) → r.class ≡ class → IsOfAFile r.unit → KeepsParents keep → AreTold r (filter keep (items_of r.unit)) items.now → IfOk result (λ answers. answers.items ≡ map (answer_of r) (filter keep (items_of r.unit))) }
{
    let mut reached = Reached::new(alloc, class);
    let mut answers = Vec::new(alloc);
    for item in items {
        answers.push(answer_to(&mut reached, item)?)?;
    }
    Ok(answers)
}

// What gdb does of the next item, which is entered.
fn answer_to(reached: &mut Reached, item: &ToldItem) -> Result<Answer, NoMemory>
    ensures is { (r : UnitRead) (passed : List Item) (d : Item) → StandsFor r passed reached.old → ComesBehind r.unit passed d → IsToldOf r d item.now → IfOk result (λ answer. answer ≡ answer_of r d) }
    ensures stands { (r : UnitRead) (passed : List Item) (d : Item) → StandsFor r passed reached.old → ComesBehind r.unit passed d → IsToldOf r d item.now → OnOk result (StandsFor r (passed ++ d ∷ []) reached.new) }
{
    let look = reached.look(item.depth, &item.facts);
    let open_around = reached.open_around(item.depth);
    let is_open = reached.enter(item.depth, &item.facts, item.has_name, item.token)?;
    Ok(Answer {
        look,
        is_open,
        open_around,
    })
}
