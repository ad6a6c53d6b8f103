//! A walk over the items of a unit.

ghost use Rattle.std.specs.Prelude.{◌≡◌, ◌&&◌, ◌++◌, ◌∷◌, [], List, Some, option_map, IfOk, OnOk, OnErr};
ghost use Rattle.index_model.specs.Walk.{Item};
ghost use Rattle.index_model.specs.Program.{scope_around};
ghost use Rattle.gdb_entries.specs.Owners.{class_read};
ghost use Rattle.gdb_entries.specs.Reached.{is_open};
ghost use Rattle.gdb_entries.specs.Rules.{opens};
ghost use Rattle.gdb_entries.specs.Scopes.{open_around};
ghost use Rattle.gdb_reach.specs.Ways.{is_looked_at};
ghost use Rattle.gdb_reach.specs.Parents.{parent_to};
ghost use Rattle.gdb_reach.specs.Around.{open_by};
ghost use Rattle.gdb_reach.specs.Standing.{UnitRead, StandsFor, ComesBehind, IsTold, IsNameTold, in_unit, look_of};

use crate::parents::{ParentItem, innermost_in, parent_in, set_parent, token_in, way_in};
use crate::way::{Way, is_looked_at, token_around};
use gdb_entries::{ItemFacts, LanguageClass, opens};
use ix_base::NoMemory;
use std::alloc::Global;

/// What gdb does of an item.
#[derive(Clone, Copy, Debug, PartialEq, Eq)]
pub struct Look {
    /// Whether gdb looks at it: it is listed, but where it gives its name to what stands in it alone.
    pub is_seen: bool,
    /// The token of the innermost open item around it, if gdb comes to it.
    pub around: Option<u64>,
}

/// How gdb comes to the items of a unit behind those that were entered.
///
/// Items are entered in the order in which they stand. One that has no children may be left out.
#[derive(Drop)]
pub struct Reached {
    class: LanguageClass,
    // The last item of each depth that has children.
    parents: Vec<Option<ParentItem>>,
}

impl Reached {
    /// Before the first item of a unit that is read by this class.
    pub fn new(alloc: Global, class: LanguageClass) -> Reached
        ensures { (r : UnitRead) → r.class ≡ class → StandsFor r [] result }
    {
        Reached {
            class,
            parents: Vec::new(alloc),
        }
    }

    /// What gdb does of the next item.
    pub fn look(&self, depth: u32, item: &ItemFacts) -> Look
        ensures { (r : UnitRead) (passed : List Item) (d : Item) → StandsFor r passed self.now → ComesBehind r.unit passed d → IsTold d depth item.now → result ≡ look_of r d }
    {
        let way = way_in(self.parent_to(depth));
        Look {
            is_seen: is_looked_at(way, item),
            around: token_around(way),
        }
    }

    /// The token of the innermost open item around the next item, which has this depth, whether or not gdb comes to it.
    pub fn open_around(&self, depth: u32) -> Option<u64>
        ensures by_class { (r : UnitRead) (passed : List Item) (d : Item) → StandsFor r passed self.now → ComesBehind r.unit passed d → depth ≡ d.depth → result ≡ option_map r.token (open_by r.program (Some r.class) (in_unit r.unit d)) }
        ensures as_read { (r : UnitRead) (passed : List Item) (d : Item) → StandsFor r passed self.now → ComesBehind r.unit passed d → depth ≡ d.depth → class_read r.program r.unit ≡ Some r.class → result ≡ option_map r.token (open_around r.program (in_unit r.unit d)) }
    {
        innermost_in(self.parent_to(depth))
    }

    /// The token of the lexical parent of the next item, which has this depth. A root has none.
    pub fn parent(&self, depth: u32) -> Option<u64>
        ensures { (r : UnitRead) (passed : List Item) (d : Item) → StandsFor r passed self.now → ComesBehind r.unit passed d → depth ≡ d.depth → result ≡ option_map r.token (scope_around (in_unit r.unit d)) }
    {
        token_in(self.parent_to(depth))
    }

    /// Enters the next item, which has this token for what stands in it, and says whether it is open. Whether it has a name
    /// counts only where it is looked at and has children. At `Err` it wasn't entered.
    pub fn enter(
        &mut self,
        depth: u32,
        item: &ItemFacts,
        has_name: bool,
        token: u64,
    ) -> Result<bool, NoMemory>
        ensures is_open { (r : UnitRead) (passed : List Item) (d : Item) → StandsFor r passed self.old → ComesBehind r.unit passed d → IsTold d depth item.now → IsNameTold r d has_name → IfOk result (λ answer. answer ≡ is_open r.program r.class (in_unit r.unit d)) }
        ensures ok { (r : UnitRead) (passed : List Item) (d : Item) → StandsFor r passed self.old → ComesBehind r.unit passed d → IsTold d depth item.now → IsNameTold r d has_name → token ≡ r.token (in_unit r.unit d) → OnOk result (StandsFor r (passed ++ d ∷ []) self.new) }
        ensures err { (r : UnitRead) (passed : List Item) → StandsFor r passed self.old → OnErr result (StandsFor r passed self.new) }
    {
        let above = self.parent_to(depth);
        let is_open = self.is_open_by(way_in(above), item, has_name);
        if item.children {
            let parent = parent_in(above, depth, item, is_open, token);
            set_parent(&mut self.parents, depth, parent)?;
        }
        Ok(is_open)
    }

    // Whether an item to which gdb comes so is open.
    fn is_open_by(&self, way: Option<Way>, item: &ItemFacts, has_name: bool) -> bool
        ensures { result ≡ (is_looked_at way item.now && opens self.now.class item.now.tag item.now.children has_name) }
    {
        is_looked_at(way, item) && opens(self.class, item.tag, item.children, has_name)
    }

    // The parent of an item of this depth. A root has none.
    fn parent_to(&self, depth: u32) -> Option<ParentItem>
        ensures { result ≡ parent_to self.now.parents.items depth }
    {
        let above = depth.checked_sub(1)?;
        *self.parents.get(above as usize)?
    }
}
