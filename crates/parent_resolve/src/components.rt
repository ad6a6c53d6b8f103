//! What the members of a scope path give to C++ names (DWARF 5, section 2.13.2).

ghost use Rattle.std.specs.Prelude.{◌≡◌};
ghost use Rattle.index_model.specs.Gives.{GivesFor};
ghost use Rattle.index_model.specs.Meaning.{at_place};
ghost use Rattle.index_model.specs.Names.{scope_path};
ghost use Rattle.parent_resolve.specs.Components.{AreComponents};
ghost use Rattle.parent_resolve.specs.Paths.{ForAround, ForEnd};

use crate::members::{step_at, too_long};
use crate::references::References;
use ix_base::{MAX_PATH_STEPS, Stop};
use std::alloc::Global;

impl<'s, 'f> References<'s, 'f> {
    /// What the members of the scope path around an entry with this lexical parent, or with none, give to C++ names, from the
    /// inside outwards; None for a member that gives nothing. A fault has the place `at`: a reference that names no entry (code
    /// 16), or a chain of more than 8 hops or a path of more than 1,024 steps (17).
    pub fn components(
        &mut self,
        alloc: Global,
        parent: Option<u64>,
        at: u64,
    ) -> Result<Vec<Option<&'f [u8]>>, Stop>
        ensures value { ForEnd self.old parent (λ p e. GivesFor AreComponents result (at_place at (scope_path p e))) }
        ensures kept { self.new ≡ self.old }
    {
        match parent {
            Some(parent) => components_from(self, alloc, parent, at),
            None => Ok(Vec::new(alloc)),
        }
    }
}

// What the members of the path around an entry with this lexical parent give.
fn components_from<'f>(
    references: &mut References<'_, 'f>,
    alloc: Global,
    parent: u64,
    at: u64,
) -> Result<Vec<Option<&'f [u8]>>, Stop>
    ensures value { ForAround references.old parent (λ p d. GivesFor AreComponents result (at_place at (scope_path p d))) }
    ensures kept { references.new ≡ references.old }
{
    let mut components = Vec::new(alloc);
    let mut around = parent;
    'members: for _ in 0..MAX_PATH_STEPS {
        let step = step_at(references, alloc, around, at)?;
        components.push(step.component)?;
        match step.around {
            Some(parent) => around = parent,
            None => return Ok(components),
        }
    }
    Err(too_long(at))
}
