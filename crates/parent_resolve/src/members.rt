//! The members of a scope path, one by one from the inside outwards (DWARF 5, section 2.13.2).

ghost use Rattle.std.specs.Prelude.{◌≡◌};
ghost use Rattle.ix_base.specs.declared.code.TheConstants.{REFERENCE_CHAIN};
ghost use Rattle.ix_base.specs.declared.or_memory.OrMemory.TheVariants as stops;
ghost use Rattle.index_model.specs.Gives.{GivesFor};
ghost use Rattle.index_model.specs.Meaning.{at_place, fault};
ghost use Rattle.parent_resolve.specs.Followed.{ForEntry};
ghost use Rattle.parent_resolve.specs.Scopes.{followed_at, passed_at, IsStep};
ghost use Rattle.parent_resolve.specs.Paths.{ForMember};

use crate::references::References;
use crate::scope::component;
use index_model::Node;
use ix_base::code::REFERENCE_CHAIN;
use ix_base::{Fault, Stop};
use std::alloc::Global;

/// One member of a scope path: what it gives to C++ names, and the joint offset of the lexical parent of its chain's end. None
/// where the path ends.
#[derive(Clone, Copy)]
pub(crate) struct Step<'f> {
    pub(crate) component: Option<&'f [u8]>,
    pub(crate) around: Option<u64>,
}

/// The member at the offset. There is one. A fault has the place `at`.
pub(crate) fn step_at<'f>(
    references: &mut References<'_, 'f>,
    alloc: Global,
    offset: u64,
    at: u64,
) -> Result<Step<'f>, Stop>
    ensures value { ForMember references.old offset (λ p m. GivesFor (IsStep p) result (at_place at (passed_at p m))) }
    ensures kept { references.new ≡ references.old }
{
    match references.at(alloc, offset)? {
        Some(member) if member.parent.is_some() => step_over(references, alloc, &member, at),
        _ => Ok(Step {
            component: None,
            around: None,
        }),
    }
}

// A member that isn't a root, and what is around its chain's end.
fn step_over<'f>(
    references: &mut References<'_, 'f>,
    alloc: Global,
    member: &Node<'f>,
    at: u64,
) -> Result<Step<'f>, Stop>
    ensures value { ForEntry references.old member.now (λ p m. GivesFor (IsStep p) result (at_place at (followed_at p m))) }
    ensures kept { references.new ≡ references.old }
{
    let traced = references.follow(alloc, member, at)?;
    Ok(Step {
        component: component(member, traced.spelled),
        around: traced.around,
    })
}

/// The fault of a path with too many steps.
pub(crate) fn too_long(at: u64) -> Stop
    ensures { result ≡ stops.Cause (fault REFERENCE_CHAIN at) }
{
    Stop::Cause(Fault {
        code: REFERENCE_CHAIN,
        at,
    })
}
